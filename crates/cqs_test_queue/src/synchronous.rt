//! Two passes of a synchronous semaphore, of which one stops in the middle of a call: who comes to
//! the line, who gives a permit away, and who leaves.

ghost use Rattle.std.specs.Prelude.{◌≡◌, true};
ghost use Rattle.cqs_core.specs.declared.doings.Doing.TheVariants.{Door, Idle, Leaving};
ghost use Rattle.cqs_rule_laws.specs.CallRule.{IsReady};
ghost use Rattle.cqs_rule_laws.specs.Placed.{KnowsPlace};
ghost use Rattle.cqs_rule.specs.Passes.{client_of, pass_view, IsOf};
ghost use Rattle.cqs_semaphore_client.specs.SemaphoreMade.{sync_of};

use cqs_cell::{begin_cancel, settle};
use cqs_rule::{Client, Config, Pass, Place, Queue};
use cqs_semaphore::SemPass;
use cqs_semaphore_client::{SemClient, next_wait, take_permit};
use cqs_suspend::{SyncSuspended, suspend_sync};
use cqs_sync_semaphore::{SyncAcquired, SyncReleased, SyncSemaphore};
use std::alloc::Global;
use std::process::Abort;
use std::test::Fail;

/// Two passes, on slots for all segments.
const CONFIG: Config = Config {
    passes: 2,
    limit: 64,
    slots: 16,
};

// A caller finds the only permit taken, and comes to the door.
fn come_to_the_door(rt: &impl Abort, queue: &Queue<SemClient>, pass: &mut Pass<SemClient>)
    requires belongs { IsOf queue.now pass.old }
    requires idle { (pass_view pass.old).facts.doing ≡ Idle }
    ensures belongs { IsOf queue.now pass.new }
    ensures door { (pass_view pass.new).facts.doing ≡ Door }
{
    assert!(rt; next_wait(queue, pass) < queue.limit());
    assert!(rt; take_permit(queue, pass).word == 4_294_967_296);
}

// It goes on, and finds that its permit was taken back.
fn find_broken(rt: &impl Abort, queue: &Queue<SemClient>, pass: &mut Pass<SemClient>, number: u64)
    requires belongs { IsOf queue.now pass.old }
    requires sync { sync_of (client_of queue.now) ≡ true }
    requires door { (pass_view pass.old).facts.doing ≡ Door }
    ensures belongs { IsOf queue.now pass.new }
{
    if !queue.is_ample() {
        panic!(rt; "there are slots for all");
    }
    let SyncSuspended::Broke(broken) = suspend_sync(queue, pass) else {
        panic!(rt; "its cell is broken");
    };
    assert!(rt; broken == number);
    assert!(rt; pass.held() == 0 && pass.waits() == 0 && !pass.owes());
}

// The permit is held out to the caller at the door, and taken back after so many looks.
fn break_after(rt: &impl Abort, alloc: Global, looks: u32) -> Result<(), Fail> {
    let (semaphore, mut giver) = SyncSemaphore::new(alloc, 1, CONFIG, looks)?;
    let Ok(mut comer) = semaphore.split(&mut giver) else {
        panic!(rt; "two passes may be made");
    };
    let Ok(SyncAcquired::Now(permit)) = semaphore.acquire(&mut giver) else {
        panic!(rt; "the permit is free");
    };
    come_to_the_door(rt, semaphore.queue(), &mut comer);
    let Ok(SyncReleased::Broke(number, permit)) = semaphore.release(&mut giver, permit) else {
        panic!(rt; "nobody is in the cell");
    };
    assert!(rt; number == 0 && permit.number() == None);
    assert!(rt; giver.held() == 1 && !giver.owes());
    find_broken(rt, semaphore.queue(), &mut comer, 0);
    let Ok(SyncReleased::Freed) = semaphore.release(&mut giver, permit) else {
        panic!(rt; "nobody waits any more");
    };
    assert!(rt; semaphore.state(&mut giver) == 1);
    Ok(())
}

#[test]
fn broken_then_undone(rt: HostRuntime) -> Result<(), Fail> {
    break_after(&rt, rt.alloc(), 0)
}

#[test]
fn three_looks(rt: HostRuntime) -> Result<(), Fail> {
    break_after(&rt, rt.alloc(), 3)
}

// A caller who waits begins to leave, and stops before it asks whether it may.
fn begin_to_leave(rt: &impl Abort, semaphore: &SyncSemaphore, pass: &mut SemPass) -> Place
    requires belongs { IsOf semaphore.now.queue pass.old }
    requires ready { IsReady (pass_view pass.old).facts }
    ensures belongs { IsOf semaphore.now.queue pass.new }
    ensures leaving { (pass_view pass.new).facts.doing ≡ Leaving result.index }
    ensures place { KnowsPlace (pass_view pass.new) result }
{
    let Ok(SyncAcquired::Later(wait)) = semaphore.acquire(pass) else {
        panic!(rt; "the permit is taken");
    };
    let at = semaphore.queue().spend_wait(pass, wait);
    let Ok(()) = begin_cancel(semaphore.queue(), pass, at) else {
        panic!(rt; "nobody came to the cell");
    };
    at
}

// It asks, is refused, since the permit for it is on its way, and has left then.
fn end_leaving(rt: &impl Abort, queue: &Queue<SemClient>, pass: &mut SemPass, at: Place)
    requires belongs { IsOf queue.now pass.old }
    requires leaving { (pass_view pass.old).facts.doing ≡ Leaving at.index }
    requires place { KnowsPlace (pass_view pass.old) at }
    ensures belongs { IsOf queue.now pass.new }
{
    if SemClient::on_cancellation(queue, pass, at.index) {
        panic!(rt; "the permit is on its way");
    }
    assert!(rt; settle(queue, pass, at, false) == Ok(None));
}

#[test]
fn handled(rt: HostRuntime) -> Result<(), Fail> {
    let (semaphore, mut giver) = SyncSemaphore::new(rt.alloc(), 1, CONFIG, 3)?;
    let Ok(mut leaver) = semaphore.split(&mut giver) else {
        panic!(rt; "two passes may be made");
    };
    let Ok(SyncAcquired::Now(permit)) = semaphore.acquire(&mut giver) else {
        panic!(rt; "the permit is free");
    };
    let at = begin_to_leave(&rt, &semaphore, &mut leaver);
    let Ok(SyncReleased::Handling(number, under)) = semaphore.release(&mut giver, permit) else {
        panic!(rt; "the waiter is leaving");
    };
    assert!(rt; number == 0 && under.number() == None);
    let SyncReleased::Handling(number, under) = semaphore.finish(&mut giver, under) else {
        panic!(rt; "the waiter is leaving still");
    };
    assert!(rt; number == 0 && giver.owes());
    end_leaving(&rt, semaphore.queue(), &mut leaver, at);
    let SyncReleased::Void(number) = semaphore.finish(&mut giver, under) else {
        panic!(rt; "the waiter was told that the permit would be free");
    };
    assert!(rt; number == 0 && giver.held() == 0 && !giver.owes());
    assert!(rt; semaphore.state(&mut giver) == 1);
    Ok(())
}
