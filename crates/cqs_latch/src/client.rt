//! The latch as a client of the queue: what it tells the queue of itself.

ghost use Rattle.std.specs.Prelude.{◌≡◌, ◌≤◌};

use atomic_table::{Shared, TableRule};
use cqs_latch_object::LatchEntry;
use cqs_rule::{CancelMode, Carries, ClientWords};
use cqs_words::{StateWord, WaitersWord};
use std::marker::PhantomData;

/// A count-down latch by its two words: the count, and the waiters with the done bit. Nothing moves
/// to those who wait; `T` says whether they may park.
#[derive(Drop)]
pub struct LatchClient<T = ()> {
    count: u32,
    mode: CancelMode,
    parks: PhantomData<T>,
    ghost few: { count ≤ 1048576 },
}

impl<T> LatchClient<T> {
    ghost use Rattle.cqs_latch.specs.LatchMade.{count_of, mode_of};

    /// A latch that is to be counted down so often, and whose waits leave in this mode.
    pub fn new(count: u32, mode: CancelMode) -> LatchClient<T>
        requires few { count ≤ 1048576 }
        ensures count { count_of result ≡ count }
        ensures mode { mode_of result ≡ mode }
    {
        LatchClient {
            count,
            mode,
            parks: PhantomData,
        }
    }
}

impl<T: Carries> ClientWords for LatchClient<T> {
    ghost use Rattle.cqs_latch.specs.Latch.{latch_object, latch_primitive};
    ghost use Rattle.cqs_latch.specs.LatchClient.{latch-client};
    ghost use Rattle.cqs_latch.specs.LatchMade.{count_of, mode_of};

    type Slot = T;

    type Entry = LatchEntry;

    ghost object = { latch_object };

    ghost primitive = { λ x. latch_primitive (mode_of x) (count_of x) };

    ghost value_slots = { λ x. 0 };

    fn words(&self) -> u32 {
        2
    }

    fn opening(&self, word: u32) -> u64 {
        if word == 0 {
            return StateWord {
                value: i64::from(self.count),
            }
            .pack();
        }
        WaitersWord {
            waiters: 0,
            done: self.count == 0,
        }
        .pack()
    }

    fn slots(&self) -> u32 {
        0
    }

    fn values(&self) -> u32 {
        0
    }

    fn held(&self) -> u32 {
        0
    }

    fn held_after_take(held: u32) -> u32 {
        held
    }

    fn wake<S, V, K, P: TableRule<S, V, K>>(words: &Shared<S, V, K, P>, word: usize) {
        T::wake(words, word);
    }

    ghost keeps = { λ x. latch-client (mode_of x) (count_of x) };
}
