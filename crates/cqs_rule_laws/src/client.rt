//! What a primitive tells the queue.
//!
//! The data, the readers and the laws stand in `ClientWords`, over which the queue, its passes and
//! its steps are generic.

use atomic_table::{Shared, TableRule};

/// A client of the queue: a primitive, by its own words of the table. Contracts see which histories
/// its words and the queue show together, and the laws say that each step of the queue keeps this.
pub trait ClientWords: Sized + Drop {
    /// What lies in its value slots.
    type Slot: Drop;

    /// What its history consists of.
    type Entry;

    ghost use Rattle.std.specs.Prelude.{◌≡◌, ℕ, ◌<◌, ◌≤◌, ◌^◌, length, slice_index};
    ghost use Rattle.cqs_rule_laws.specs.Client.{IsClient};
    ghost use Rattle.cqs_rule_laws.specs.Object.{Object, Primitive};

    // Its object: which entries name a pass, which histories are legal, and what the steps of the
    // queue mean to it.
    ghost object: { Object Self.Entry };

    // What this client is made with, and what its words, the history and the values handed in show
    // together.
    ghost primitive: { Self → Primitive Self.Entry Self.Slot };

    ghost value_slots: { Self → ℕ };

    /// The number of its words.
    fn words(&self) -> u32
        ensures count { result ≡ length (primitive self.now).words }
        ensures few { result ≤ 4 };

    /// The opening value of one of its words. Of a word that it doesn't have nothing is said.
    fn opening(&self, word: u32) -> u64
        ensures { word < length (primitive self.now).words
            → result ≡ slice_index (primitive self.now).words word };

    /// The number of its value slots, which open empty.
    fn slots(&self) -> u32
        ensures { result ≡ value_slots self.now };

    /// The number of values that stand in cells at first, each cell with its own number.
    fn values(&self) -> u32
        ensures { result ≡ (primitive self.now).values };

    /// What the first pass holds.
    fn held(&self) -> u32
        ensures { result ≡ (primitive self.now).held };

    /// What a pass that held this much holds after it has taken a value.
    fn held_after_take(held: u32) -> u32
        requires { object.gains.held held < 2 ^ 32 }
        ensures { result ≡ object.gains.held held };

    /// Wakes the caller that parks on a word of the table, if there is one. A client whose callers
    /// never park does nothing here, and then runs where no thread may be woken.
    fn wake<S, V, K, P: TableRule<S, V, K>>(words: &Shared<S, V, K, P>, word: usize)
        requires inside { word < words.now.table_id.words }
    {
        words.wake_one(word);
    }

    ghost keeps: { (x : Self) → IsClient object (primitive x) };
}

/// The event that a step on a word of the client shows.
pub trait Shown<C: ClientWords> {
    ghost use Rattle.std.specs.Prelude.{◌≡◌};
    ghost use Rattle.cqs_rule_laws.specs.Events.{Event, Moment, IsMoment, HoldsFew};
    ghost use Rattle.cqs_rule_laws.specs.Facts.{is_owing};

    ghost event: { Event C.Entry };

    /// What the pass holds after the step.
    fn held_after(held: u32, found: u64, made: bool) -> u32
        requires { HoldsFew event held found made }
        ensures { (m : Moment) → IsMoment held found made m → event.holds m ≡ result };

    /// Whether the pass owes after the step, by whether it owed before.
    fn owes_after(owes: bool, found: u64, made: bool) -> bool
        ensures { (m : Moment) → is_owing m.facts.doing ≡ owes → m.found ≡ found → m.made ≡ made
            → is_owing (event.doing m) ≡ result };

    /// How many further resumptions it owes after the step, by how many it owed before.
    fn further_after(further: u32, found: u64, made: bool) -> u32
        ensures { (m : Moment) → m.facts.has.further ≡ further → m.found ≡ found → m.made ≡ made
            → event.further m ≡ result };
}
