//! What the queue calls back of a semaphore.

use crate::semaphore::calls::STATE;
use crate::semaphore::{Decide, SemClient};
use cqs_rule::{Carries, Client, Pass, Queue};
use cqs_words::StateWord;

impl<T: Carries + Send> Client for SemClient<T> {
    ghost use Rattle.cqs_rule.specs.Callbacks.{by_step};
    ghost use Rattle.cqs_semaphore_client.specs.Semaphore.{decides};

    ghost asking = { by_step 0 decides };

    fn on_cancellation(queue: &Queue<Self>, pass: &mut Pass<Self>, _wait: u64) -> bool {
        let found = queue.add_word::<Decide>(pass, STATE, 1);
        StateWord::is_below_zero(found)
    }

    fn complete_refused_resume(_queue: &Queue<Self>, _pass: &mut Pass<Self>, _payload: u32) {}
}
