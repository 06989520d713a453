//! How a permit is given back, to the end.

ghost use Rattle.std.specs.Prelude.{◌-◌, ◌<◌, []};
ghost use Rattle.cqs_rule.specs.Passes.{pass_view};
ghost use Rattle.cqs_semaphore.specs.Calls.{Course};
ghost use Rattle.cqs_semaphore_crew.specs.Sums.{KeepsCalls};
ghost use Rattle.cqs_semaphore_crew.specs.Tallies.{Adds};
ghost use Rattle.cqs_semaphore.specs.Callers.{held_by, IsAtRest, IsOwing};

use crate::counts::{Counts, count};
use cqs_rule::Under;
use cqs_semaphore::{Permit, Released, SemPass, Semaphore};
use std::sync::Wait;
use std::thread;

/// Gives the permit back, as soon as a slot is free for that.
pub fn give_back<R: Wait>(
    rt: &R,
    semaphore: &Semaphore,
    pass: &mut SemPass,
    permit: Permit,
    counts: &mut Counts,
)
    requires rest { IsAtRest semaphore.now (held_by pass.old) pass.old }
    requires holds { 0 < held_by pass.old }
    ensures rest { IsAtRest semaphore.now (held_by pass.old - 1) pass.new }
    ensures adds { Adds 0 0 (pass_view pass.old) counts.old (pass_view pass.new) counts.new }
    ensures keeps { KeepsCalls counts.old counts.new }
{
    let mut permit = permit;
    for _ in rt.forever() {
        match semaphore.release(pass, permit) {
            Ok(Released::Freed) => return count(&mut counts.releases.freed),
            Ok(Released::Sent(_)) => return count(&mut counts.releases.sent),
            Ok(Released::Left(_)) => return count(&mut counts.releases.left),
            Ok(Released::Void(_)) => return count(&mut counts.releases.void),
            Ok(Released::Under(under)) => return finish_all(rt, semaphore, pass, under, counts),
            Err((back, _)) => {
                permit = back;
                thread::yield_now();
            }
        }
    }
    unreachable!()
}

/// Goes on with a permit that is on its way until it has arrived. The pass makes no entry. Where a
/// slot is wanted, other threads may run before the next call.
pub fn finish_all<R: Wait>(
    rt: &R,
    semaphore: &Semaphore,
    pass: &mut SemPass,
    under: Under,
    counts: &mut Counts,
)
    requires owes { IsOwing semaphore.now (held_by pass.old) under pass.old }
    ensures rest { IsAtRest semaphore.now (held_by pass.old) pass.new }
    ensures adds { Adds 1 0 (pass_view pass.old) counts.old (pass_view pass.new) counts.new }
    ensures keeps { KeepsCalls counts.old counts.new }
    ensures silent { Course (pass_view pass.old) [] (pass_view pass.new) }
{
    let mut under = under;
    for _ in rt.forever() {
        count(&mut counts.releases.under);
        match semaphore.finish(pass, under) {
            Released::Under(again) => {
                under = again;
                thread::yield_now();
            }
            Released::Freed => unreachable!(),
            Released::Sent(_) => return count(&mut counts.releases.sent),
            Released::Left(_) => return count(&mut counts.releases.left),
            Released::Void(_) => return count(&mut counts.releases.void),
        }
    }
    unreachable!()
}
