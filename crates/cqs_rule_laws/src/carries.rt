//! What moves with that which a client hands from pass to pass, as a permit, and whether its
//! callers may park.

use atomic_table::{Shared, TableRule};

/// What moves with a permit or an element: nothing, or a value that lies in a slot of the table.
pub trait Carries: Drop {
    ghost use Rattle.std.specs.Prelude.{◌≡◌, ◌<◌, Bool};
    ghost use Rattle.cqs_rule_laws.specs.Carried.{slots_when};

    // Whether a value moves.
    ghost kept: { Bool };

    /// The number of value slots.
    fn slots() -> u32
        ensures { result ≡ slots_when kept };

    /// Wakes the caller that parks on a word of the table, if there is one.
    fn wake<S, V, K, P: TableRule<S, V, K>>(words: &Shared<S, V, K, P>, word: usize)
        requires inside { word < words.now.table_id.words }
    {
        words.wake_one(word);
    }
}

impl Carries for () {
    ghost use Rattle.std.specs.Prelude.{false};

    ghost kept = { false };

    fn slots() -> u32 {
        0
    }
}

/// Nothing moves, and no caller parks: each looks at its wait when it likes. So a library that may
/// wake no thread can hold such a primitive.
#[derive(Drop)]
pub struct Unparked;

impl Carries for Unparked {
    ghost use Rattle.std.specs.Prelude.{false};

    ghost kept = { false };

    fn slots() -> u32 {
        0
    }

    fn wake<S, V, K, P: TableRule<S, V, K>>(_words: &Shared<S, V, K, P>, _word: usize) {}
}

/// A value that moves, with the one permit of a mutex or with each element of a pool.
#[derive(Drop)]
pub struct Kept<T> {
    pub value: T,
}

impl<T: Drop> Carries for Kept<T> {
    ghost use Rattle.std.specs.Prelude.{true};

    ghost kept = { true };

    fn slots() -> u32 {
        1
    }
}
