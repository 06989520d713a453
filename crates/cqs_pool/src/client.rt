//! What the pool tells the queue. Its elements open as values in the first cells, and it has no
//! word of its own.

ghost use Rattle.std.specs.Prelude.{◌≡◌, ◌<◌, ◌≤◌};

use atomic_table::{Shared, TableRule};
use cqs_pool_object::PoolEntry;
use cqs_rule::{Carries, Client, ClientWords, Pass, Queue};
use std::marker::PhantomData;

/// A pool whose elements carry what `T` says: a value in a slot of its own each, or nothing.
#[derive(Drop)]
pub struct PoolClient<T = ()> {
    elements: u32,
    value: PhantomData<T>,
    ghost some: { 0 < elements },
    ghost few: { elements ≤ 4096 },
}

impl<T> PoolClient<T> {
    ghost use Rattle.cqs_pool.specs.PoolSize.{elements_of};

    /// A pool that opens with this many elements.
    pub fn new(elements: u32) -> PoolClient<T>
        requires some { 0 < elements }
        requires few { elements ≤ 4096 }
        ensures { elements_of result ≡ elements }
    {
        PoolClient {
            elements,
            value: PhantomData,
        }
    }
}

impl<T: Carries> ClientWords for PoolClient<T> {
    ghost use Rattle.cqs_pool.specs.PoolSize.{elements_of, slots_when};
    ghost use Rattle.cqs_pool.specs.Pool.{pool_object, pool_primitive};
    ghost use Rattle.cqs_pool.specs.PoolIsClient.{pool-client};

    type Slot = T;

    type Entry = PoolEntry;

    ghost object = { pool_object };

    ghost primitive = { λ x. pool_primitive (elements_of x) };

    ghost value_slots = { λ x. slots_when T.kept (elements_of x) };

    fn words(&self) -> u32 {
        0
    }

    fn opening(&self, _word: u32) -> u64 {
        0
    }

    // An element has its own slot, if it has any.
    fn slots(&self) -> u32 {
        if T::slots() == 0 { 0 } else { self.elements }
    }

    fn values(&self) -> u32 {
        self.elements
    }

    fn held(&self) -> u32 {
        0
    }

    fn held_after_take(held: u32) -> u32 {
        held
    }

    fn wake<S, V, K, P: TableRule<S, V, K>>(words: &Shared<S, V, K, P>, word: usize) {
        T::wake(words, word);
    }

    ghost keeps = { λ x. pool-client (elements_of x) };
}

impl<T: Carries + Send> Client for PoolClient<T> {
    ghost use Rattle.cqs_rule.specs.Callbacks.{as_it_begins};

    ghost asking = { as_it_begins };

    fn on_cancellation(_queue: &Queue<Self>, _pass: &mut Pass<Self>, _wait: u64) -> bool {
        true
    }

    fn complete_refused_resume(_queue: &Queue<Self>, _pass: &mut Pass<Self>, _payload: u32) {}
}
