//! What a worker does with its passes, round for round.

ghost use Rattle.cqs_test_threads.specs.Workers.{IsAtRest, AreAtRest, HasEnded};

use crate::pools::giving::give_back;
use crate::pools::waiting::{give_up, wait_for};
use cqs_pool_values::{Item, ItemTaking, ValuePass, ValuePool};
use cqs_rule::AcquireError;
use std::sync::Wait;
use std::thread;

/// The passes of one worker, by which it may have three items at once.
pub type Hands = (ValuePass<u64>, ValuePass<u64>, ValuePass<u64>);

/// So many rounds each worker makes.
pub const ROUNDS: u32 = 200;

/// In each third round a worker that has to wait leaves the line at once.
const PATIENT_ROUNDS: u32 = 3;

/// Makes the rounds: in each the worker takes an item with each of its passes, counts those that
/// came, each on its own value, and puts them back. It gives how many it took.
pub fn work<R: Wait>(rt: &R, pool: &ValuePool<u64>, hands: Hands) -> (Hands, u64)
    requires rest { AreAtRest pool.now hands }
    ensures rest { AreAtRest pool.now result.0 }
{
    let (mut first, mut second, mut third) = hands;
    let mut taken = 0u64;
    for round in 0..ROUNDS {
        let patient = round % PATIENT_ROUNDS != 0;
        let one = seek(rt, pool, &mut first, patient);
        let two = seek(rt, pool, &mut second, patient);
        let three = seek(rt, pool, &mut third, patient);
        taken = taken.wrapping_add(end(rt, pool, &mut third, three));
        taken = taken.wrapping_add(end(rt, pool, &mut first, one));
        taken = taken.wrapping_add(end(rt, pool, &mut second, two));
    }
    ((first, second, third), taken)
}

// Takes, as soon as there are slots for that: an item, or none where the wait was given up, or
// where no further number may be drawn.
fn seek<R: Wait>(
    rt: &R,
    pool: &ValuePool<u64>,
    pass: &mut ValuePass<u64>,
    patient: bool,
) -> Option<Item<u64>>
    requires rest { IsAtRest pool.now pass.old }
    ensures ended { HasEnded pool.now result pass.new }
{
    for _ in rt.forever() {
        match pool.take(pass) {
            Ok(ItemTaking::Took(item)) => return Some(item),
            Ok(ItemTaking::Later(wait)) => {
                if patient {
                    return wait_for(rt, pool, pass, wait);
                }
                return give_up(rt, pool, pass, wait);
            }
            Err(AcquireError::Worn) => return None,
            Err(AcquireError::Crowded) => thread::yield_now(),
        }
    }
    unreachable!()
}

// Counts the item that came, if one did, and puts it back. Another thread may run between the load
// of its value and the store: one that had the item, too, would be forgotten.
fn end<R: Wait>(
    rt: &R,
    pool: &ValuePool<u64>,
    pass: &mut ValuePass<u64>,
    came: Option<Item<u64>>,
) -> u64
    requires ended { HasEnded pool.now came pass.old }
    ensures rest { IsAtRest pool.now pass.new }
{
    match came {
        Some(mut item) => {
            let before = *item.get();
            thread::yield_now();
            *item.get_mut() = before.wrapping_add(1);
            give_back(rt, pool, pass, item);
            1
        }
        None => 0,
    }
}
