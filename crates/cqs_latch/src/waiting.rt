//! The wait.

ghost use Rattle.std.specs.Prelude.{◌≡◌, true, IsErrOf};
ghost use Rattle.cqs_core.specs.declared.doings.Doing.TheVariants as doing;
ghost use Rattle.cqs_latch.specs.Alone.{IsPlainWait};
ghost use Rattle.cqs_latch.specs.Answers.{HasWaited, IsCrowded};
ghost use Rattle.cqs_rule_laws.specs.CallRule.{IsReady};
ghost use Rattle.cqs_latch.specs.Calls.{IsMine, KeepsWaits};
ghost use Rattle.cqs_latch.specs.Steps.{WaitsInLine};
ghost use Rattle.cqs_rule.specs.Claims.{CanExtend};
ghost use Rattle.cqs_rule.specs.Passes.{ample_of, pass_view};

use crate::answers::LatchWait;
use crate::latch::{Latch, LatchPass};
use crate::steps::{come, load_to_wait, next_wait, turn_back};
use cqs_rule::{AcquireError, Carries};
use cqs_suspend::{Suspended, suspend};
use cqs_words::{StateWord, WaitersWord};

impl<T: Carries + Send> Latch<T> {
    /// Passes where the count is used up, and else comes to wait until the latch is opened. It is
    /// refused as worn where the count isn't used up, and as many numbers were drawn as the limit
    /// allows; and as crowded where it is neither, and there is no slot for a segment.
    pub fn wait(&self, pass: &mut LatchPass<T>) -> Result<LatchWait, AcquireError>
        requires belongs { IsMine self.now pass.old }
        requires ready { IsReady (pass_view pass.old).facts }
        ensures belongs { IsMine self.now pass.new }
        ensures waited { HasWaited (pass_view pass.old) result (pass_view pass.new) }
        ensures crowded { IsErrOf result AcquireError.Crowded
            → IsCrowded (pass_view pass.old) (pass_view pass.new) }
        ensures never_crowded { ample_of self.now.queue ≡ true
            → ¬ IsErrOf result AcquireError.Crowded }
        ensures ready { IsReady (pass_view pass.new).facts }
        ensures keeps { KeepsWaits (pass_view pass.old) (pass_view pass.new) }
        ensures alone { (pass_view pass.old).alone ≡ true
            → IsPlainWait (pass_view pass.old) result }
    {
        let loaded = load_to_wait(&self.queue, pass);
        if !StateWord::is_above_zero(loaded) {
            return Ok(LatchWait::Passed);
        }
        if next_wait(&self.queue, pass) >= self.queue.limit() {
            turn_back(&self.queue, pass, loaded);
            return Err(AcquireError::Worn);
        }
        let Ok(()) = self.queue.claim_spares(pass, 2) else {
            turn_back(&self.queue, pass, loaded);
            return Err(AcquireError::Crowded);
        };
        if WaitersWord::is_done(come(&self.queue, pass, loaded)) {
            return Ok(LatchWait::Passed);
        }
        Ok(self.wait_in_line(pass))
    }

    // Goes from the door to the line.
    fn wait_in_line(&self, pass: &mut LatchPass<T>) -> LatchWait
        requires belongs { IsMine self.now pass.old }
        requires spare { CanExtend self.now.queue pass.old }
        requires door { (pass_view pass.old).facts.doing ≡ doing.Door }
        ensures belongs { IsMine self.now pass.new }
        ensures waits { WaitsInLine (pass_view pass.old) result (pass_view pass.new) }
    {
        match suspend(&self.queue, pass) {
            Suspended::Waits(wait) => LatchWait::Later(wait),
            Suspended::Took { .. } => LatchWait::Passed,
        }
    }
}
