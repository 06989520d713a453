//! What the barrier tells the queue.

ghost use Rattle.std.specs.Prelude.{◌≡◌, ◌<◌, ◌≤◌};

use crate::word::word;
use atomic_table::{Shared, TableRule};
use cqs_barrier_object::BarrierEntry;
use cqs_rule::{Carries, Client, ClientWords, Pass, Queue};
use std::marker::PhantomData;

/// A barrier by its one word, the remaining number. Nothing moves to those who wait; `T` says
/// whether they may park.
#[derive(Drop)]
pub struct BarrierClient<T = ()> {
    parties: u32,
    parks: PhantomData<T>,
    ghost some: { 0 < parties },
    ghost few: { parties ≤ 32 },
}

impl<T> BarrierClient<T> {
    ghost use Rattle.cqs_barrier.specs.Parties.{parties_of};

    /// A barrier of so many parties, none of which has arrived.
    pub fn new(parties: u32) -> BarrierClient<T>
        requires some { 0 < parties }
        requires few { parties ≤ 32 }
        ensures { parties_of result ≡ parties }
    {
        BarrierClient {
            parties,
            parks: PhantomData,
        }
    }
}

impl<T: Carries> ClientWords for BarrierClient<T> {
    ghost use Rattle.cqs_barrier.specs.Barrier.{barrier_object, barrier_primitive};
    ghost use Rattle.cqs_barrier.specs.BarrierClient.{barrier-client};
    ghost use Rattle.cqs_barrier.specs.Parties.{parties_of};

    type Slot = T;

    type Entry = BarrierEntry;

    ghost object = { barrier_object };

    ghost primitive = { λ x. barrier_primitive (parties_of x) };

    ghost value_slots = { λ x. 0 };

    fn words(&self) -> u32 {
        1
    }

    fn opening(&self, _word: u32) -> u64 {
        word(self.parties, self.parties)
    }

    fn slots(&self) -> u32 {
        0
    }

    fn values(&self) -> u32 {
        0
    }

    fn held(&self) -> u32 {
        self.parties
    }

    fn held_after_take(held: u32) -> u32 {
        held
    }

    fn wake<S, V, K, P: TableRule<S, V, K>>(words: &Shared<S, V, K, P>, word: usize) {
        T::wake(words, word);
    }

    ghost keeps = { λ x. barrier-client (parties_of x) x.some x.few };
}

// A barrier's leaving may have to be tried again, so the queue doesn't ask for it: the barrier's
// own calls load and exchange the remaining number.
impl<T: Carries + Send> Client for BarrierClient<T> {
    ghost use Rattle.cqs_rule.specs.Callbacks.{by_itself};

    ghost asking = { by_itself };

    fn on_cancellation(_queue: &Queue<Self>, _pass: &mut Pass<Self>, _wait: u64) -> bool {
        false
    }

    fn complete_refused_resume(_queue: &Queue<Self>, _pass: &mut Pass<Self>, _payload: u32) {}
}
