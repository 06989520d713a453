//! What the queue calls back of a latch.

use crate::client::LatchClient;
use crate::events::Decide;
use crate::steps::WAITERS;
use cqs_rule::{Carries, Client, Pass, Queue};
use cqs_words::WaitersWord;

impl<T: Carries + Send> Client for LatchClient<T> {
    ghost use Rattle.cqs_latch.specs.LatchEvents.{leaves};
    ghost use Rattle.cqs_rule.specs.Callbacks.{by_step};

    ghost asking = { by_step 1 leaves };

    fn on_cancellation(queue: &Queue<Self>, pass: &mut Pass<Self>, _wait: u64) -> bool {
        let found = queue.add_word::<Decide>(pass, WAITERS, -1);
        !WaitersWord::is_done(found)
    }

    fn complete_refused_resume(_queue: &Queue<Self>, _pass: &mut Pass<Self>, _payload: u32) {}
}
