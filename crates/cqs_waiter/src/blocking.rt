//! A call that comes back with the permit.

ghost use Rattle.std.specs.Prelude.{◌≡◌, None};
ghost use Rattle.cqs_rule.specs.Passes.{pass_view};
ghost use Rattle.cqs_rule.specs.Waits.{HasWait};
ghost use Rattle.cqs_rule_laws.specs.CallRule.{IsReady};
ghost use Rattle.cqs_semaphore.specs.Calls.{IsMine};
ghost use Rattle.cqs_waiter.specs.Permits.{PermitArrives};

use crate::looks::Looks;
use cqs_rule::{AcquireError, Wait};
use cqs_semaphore::{Acquired, Permit, Polled, SemPass, Semaphore};
use std::sync::Wait as MayWait;

/// Acquires, and where a wait came of that, looks a while and then may sleep until its permit has
/// come. The thread parks on the cell of its wait; whoever serves the wait is to wake it. It is
/// refused as `acquire` is, and then no wait was made.
pub fn acquire_wait<R: MayWait>(
    rt: &R,
    semaphore: &Semaphore,
    pass: &mut SemPass,
) -> Result<Permit, AcquireError>
    requires belongs { IsMine semaphore.now pass.old }
    requires ready { IsReady (pass_view pass.old).facts }
    ensures belongs { IsMine semaphore.now pass.new }
    ensures ready { IsReady (pass_view pass.new).facts }
    ensures arrives { PermitArrives (pass_view pass.old) None result (pass_view pass.new) }
{
    let mut wait = match semaphore.acquire(pass) {
        Ok(Acquired::Later(wait)) => wait,
        Ok(Acquired::Now(permit)) => return Ok(permit),
        Err(refused) => return Err(refused),
    };
    let mut looks = Looks::new();
    for _ in rt.forever() {
        match semaphore.poll(pass, wait) {
            Polled::Granted(permit) => return Ok(permit),
            Polled::Pending(again) => wait = again,
        }
        pause(rt, semaphore, pass, &wait, &mut looks);
    }
    unreachable!()
}

// Before the next look: a pause, or a sleep once the looks before it are used up.
fn pause<R: MayWait>(
    rt: &R,
    semaphore: &Semaphore,
    pass: &mut SemPass,
    wait: &Wait,
    looks: &mut Looks,
)
    requires belongs { IsMine semaphore.now pass.old }
    requires has { HasWait (pass_view pass.old) wait.now }
    ensures same { pass.new ≡ pass.old }
{
    if !looks.once_more() {
        semaphore.queue().park_wait(rt, pass, wait);
    }
}
