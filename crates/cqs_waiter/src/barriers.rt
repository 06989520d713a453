//! A call that comes back through a barrier.

ghost use Rattle.std.specs.Prelude.{◌≡◌, ◌<◌, true, IsErrOf};
ghost use Rattle.cqs_rule.specs.Passes.{ample_of, pass_view};
ghost use Rattle.cqs_rule.specs.Waits.{HasWait};
ghost use Rattle.cqs_rule_laws.specs.CallRule.{IsReady};
ghost use Rattle.cqs_barrier.specs.Calls.{IsMine};
ghost use Rattle.cqs_barrier.specs.Waits.{wait_in};
ghost use Rattle.cqs_waiter.specs.Meetings.{IsReadyAfter, PassesBarrier};

use crate::looks::Looks;
use cqs_barrier::{Arrived, Barrier, BarrierPass, Owing, PartyPolled, PartyWait};
use cqs_rule::AcquireError;
use std::sync::Wait;

/// How a party goes through.
#[derive(Drop)]
pub enum Passage {
    /// It owes nothing.
    Through,
    /// It was the last. A resumption that it owes to the others was handed back; the barrier's
    /// `finish` goes on.
    ThroughOwing(Owing),
}

/// Arrives, and where others are still to come looks a while and then may sleep until the last has
/// arrived. The thread parks on the cell of its wait; the last party is to wake it. It is refused
/// as `arrive` is, and then the party hasn't arrived.
pub fn arrive_wait<R: Wait>(
    rt: &R,
    barrier: &Barrier,
    pass: &mut BarrierPass,
) -> Result<Passage, AcquireError>
    requires belongs { IsMine barrier.now pass.old }
    requires ready { IsReady (pass_view pass.old).facts }
    requires holds { 0 < (pass_view pass.old).facts.has.held }
    ensures belongs { IsMine barrier.now pass.new }
    ensures ready { IsReadyAfter result (pass_view pass.new).facts }
    ensures passes { PassesBarrier (pass_view pass.old) result (pass_view pass.new) }
    ensures never_crowded { ample_of barrier.now.queue ≡ true
        → ¬ IsErrOf result AcquireError.Crowded }
{
    let mut wait = match barrier.arrive(pass) {
        Ok(Arrived::Later(wait)) => wait,
        Ok(Arrived::Last) => return Ok(Passage::Through),
        Ok(Arrived::LastOwing(owing)) => return Ok(Passage::ThroughOwing(owing)),
        Err(refused) => return Err(refused),
    };
    let mut looks = Looks::new();
    for _ in rt.forever() {
        match barrier.poll(pass, wait) {
            PartyPolled::Through => return Ok(Passage::Through),
            PartyPolled::Pending(again) => wait = again,
        }
        pause(rt, barrier, pass, &wait, &mut looks);
    }
    unreachable!()
}

// Before the next look: a pause, or a sleep once the looks before it are used up.
fn pause<R: Wait>(
    rt: &R,
    barrier: &Barrier,
    pass: &mut BarrierPass,
    wait: &PartyWait,
    looks: &mut Looks,
)
    requires belongs { IsMine barrier.now pass.old }
    requires has { HasWait (pass_view pass.old) (wait_in wait.now) }
    ensures same { pass.new ≡ pass.old }
{
    if !looks.once_more() {
        barrier.park_wait(rt, pass, wait);
    }
}
