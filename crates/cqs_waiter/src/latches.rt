//! A call that comes back through a latch.

ghost use Rattle.std.specs.Prelude.{◌≡◌, true, IsErrOf};
ghost use Rattle.cqs_rule.specs.Passes.{ample_of, pass_view};
ghost use Rattle.cqs_rule.specs.Waits.{HasWait};
ghost use Rattle.cqs_rule_laws.specs.CallRule.{IsReady};
ghost use Rattle.cqs_latch.specs.Calls.{IsMine};
ghost use Rattle.cqs_waiter.specs.Passages.{PassesLatch};

use crate::looks::Looks;
use cqs_latch::{Latch, LatchPass, LatchPolled, LatchWait};
use cqs_rule::{AcquireError, Wait};
use std::sync::Wait as MayWait;

/// Waits at the latch, and where it isn't open looks a while and then may sleep until it was
/// opened. The thread parks on the cell of its wait; whoever opens the latch is to wake it. It is
/// refused as `wait` is, and then no wait was made.
pub fn wait_open<R: MayWait>(
    rt: &R,
    latch: &Latch,
    pass: &mut LatchPass,
) -> Result<(), AcquireError>
    requires belongs { IsMine latch.now pass.old }
    requires ready { IsReady (pass_view pass.old).facts }
    ensures belongs { IsMine latch.now pass.new }
    ensures ready { IsReady (pass_view pass.new).facts }
    ensures passes { PassesLatch (pass_view pass.old) result (pass_view pass.new) }
    ensures never_crowded { ample_of latch.now.queue ≡ true
        → ¬ IsErrOf result AcquireError.Crowded }
{
    let mut wait = match latch.wait(pass) {
        Ok(LatchWait::Later(wait)) => wait,
        Ok(LatchWait::Passed) => return Ok(()),
        Err(refused) => return Err(refused),
    };
    let mut looks = Looks::new();
    for _ in rt.forever() {
        match latch.poll(pass, wait) {
            LatchPolled::Through => return Ok(()),
            LatchPolled::Pending(again) => wait = again,
        }
        pause(rt, latch, pass, &wait, &mut looks);
    }
    unreachable!()
}

// Before the next look: a pause, or a sleep once the looks before it are used up.
fn pause<R: MayWait>(rt: &R, latch: &Latch, pass: &mut LatchPass, wait: &Wait, looks: &mut Looks)
    requires belongs { IsMine latch.now pass.old }
    requires has { HasWait (pass_view pass.old) wait.now }
    ensures same { pass.new ≡ pass.old }
{
    if !looks.once_more() {
        latch.park_wait(rt, pass, wait);
    }
}
