//! The calls on segments: on a table that opens with all its segments; where the cells of a segment
//! are settled, so that it leaves, and its slot is used again; and on a table of few slots, until
//! none is free.

ghost use Rattle.std.specs.Prelude.{◌≡◌, false};
ghost use Rattle.cqs_core.specs.declared.doings.Doing.TheVariants.{Door, Idle};
ghost use Rattle.cqs_rule.specs.Passes.{client_of, pass_view, IsOf};
ghost use Rattle.cqs_rule.specs.Waits.{HasWait};
ghost use Rattle.cqs_semaphore_client.specs.SemaphoreMade.{sync_of};

use cqs_cancel::{Left, cancel};
use cqs_rule::{CancelMode, Config, Pass, Queue, Wait};
use cqs_segment::{CELLS, Extended, Found, Retired};
use cqs_semaphore_client::{SemClient, next_wait, take_permit};
use cqs_suspend::{Suspended, suspend};
use std::process::Abort;
use std::test::Fail;

/// Of 102 cells, so of 4 segments.
pub const CONFIG: Config = Config {
    passes: 2,
    limit: 100,
    slots: 9,
};

/// Its slots are fewer than its segments and spare slots can be.
pub const SCARCE: Config = Config {
    passes: 1,
    limit: 4_000,
    slots: 4,
};

#[test]
fn segments_of_a_table_that_opens(rt: HostRuntime) -> Result<(), Fail> {
    let client = SemClient::new(1);
    let (queue, mut pass) = Queue::ample(rt.alloc(), CONFIG, CancelMode::Smart, client)?;
    assert!(rt; queue.is_ample());
    assert!(rt; (pass.spares(), pass.spare(0)) == (0, None));
    let last = queue.last_segment(&mut pass);
    assert!(rt; (last.id, last.slot) == (3, 3));
    let Found::At(slot) = queue.find_segment(&mut pass, 2) else {
        panic!(rt; "it stands");
    };
    assert!(rt; slot == 2);
    assert!(rt; queue.confirm(&mut pass, slot, 2));
    assert!(rt; !queue.confirm(&mut pass, slot, 1));
    let Found::Far = queue.find_segment(&mut pass, 4) else {
        panic!(rt; "it isn't made");
    };
    let Found::At(slot) = queue.find_segment(&mut pass, 0) else {
        panic!(rt; "it stands");
    };
    let Retired::Early(0) = queue.retire(&mut pass, slot, 0) else {
        panic!(rt; "no cell is counted");
    };
    let Found::At(slot) = queue.find_segment(&mut pass, 3) else {
        panic!(rt; "it stands");
    };
    let Retired::Last = queue.retire(&mut pass, slot, 3) else {
        panic!(rt; "it is the last");
    };
    Ok(())
}

/// Where no permit is free, one more comes to wait in line. In a table of few slots one is claimed
/// before, for the segment of the number.
pub fn come(rt: &impl Abort, queue: &Queue<SemClient>, pass: &mut Pass<SemClient>) -> Wait
    requires belongs { IsOf queue.now pass.old }
    requires plain { sync_of (client_of queue.now) ≡ false }
    requires idle { (pass_view pass.old).facts.doing ≡ Idle }
    ensures belongs { IsOf queue.now pass.new }
    ensures idle { (pass_view pass.new).facts.doing ≡ Idle }
    ensures waits { HasWait (pass_view pass.new) result }
{
    assert!(rt; next_wait(queue, pass) < queue.limit());
    assert!(rt; take_permit(queue, pass).word == 4_294_967_296);
    wait_in_line(rt, queue, pass)
}

/// From the door to a wait in line.
pub fn wait_in_line(rt: &impl Abort, queue: &Queue<SemClient>, pass: &mut Pass<SemClient>) -> Wait
    requires belongs { IsOf queue.now pass.old }
    requires plain { sync_of (client_of queue.now) ≡ false }
    requires door { (pass_view pass.old).facts.doing ≡ Door }
    ensures belongs { IsOf queue.now pass.new }
    ensures idle { (pass_view pass.new).facts.doing ≡ Idle }
    ensures waits { HasWait (pass_view pass.new) result }
{
    let Ok(()) = queue.claim_spares(pass, 1) else {
        panic!(rt; "a slot is free");
    };
    let Suspended::Waits(wait) = suspend(queue, pass) else {
        panic!(rt; "no value was left for this number");
    };
    wait
}

// One more comes, and leaves the line.
fn come_and_leave(rt: &impl Abort, queue: &Queue<SemClient>, pass: &mut Pass<SemClient>)
    requires belongs { IsOf queue.now pass.old }
    requires plain { sync_of (client_of queue.now) ≡ false }
    requires idle { (pass_view pass.old).facts.doing ≡ Idle }
    ensures belongs { IsOf queue.now pass.new }
    ensures idle { (pass_view pass.new).facts.doing ≡ Idle }
{
    let wait = come(rt, queue, pass);
    let Left::Gone = cancel(queue, pass, wait) else {
        panic!(rt; "nobody served the wait");
    };
}

/// As many do as a segment has cells.
pub fn leave_a_segment(rt: &impl Abort, queue: &Queue<SemClient>, pass: &mut Pass<SemClient>)
    requires belongs { IsOf queue.now pass.old }
    requires plain { sync_of (client_of queue.now) ≡ false }
    requires idle { (pass_view pass.old).facts.doing ≡ Idle }
    ensures belongs { IsOf queue.now pass.new }
    ensures idle { (pass_view pass.new).facts.doing ≡ Idle }
{
    for _ in 0..CELLS {
        come_and_leave(rt, queue, pass);
    }
}

#[test]
fn a_slot_is_used_again(rt: HostRuntime) -> Result<(), Fail> {
    let client = SemClient::new(1);
    let (queue, mut pass) = Queue::ample(rt.alloc(), CONFIG, CancelMode::Smart, client)?;
    assert!(rt; next_wait(&queue, &mut pass) == 0);
    assert!(rt; take_permit(&queue, &mut pass).word == 4_294_967_297);
    leave_a_segment(&rt, &queue, &mut pass);
    let Found::Over(1) = queue.find_segment(&mut pass, 0) else {
        panic!(rt; "all its cells are settled");
    };
    assert!(rt; pass.spares() == 0);
    assert!(rt; queue.claim(&mut pass).is_ok());
    assert!(rt; (pass.spares(), pass.spare(0)) == (1, Some(0)));
    let last = queue.last_segment(&mut pass);
    assert!(rt; (last.id, last.slot) == (3, 3));
    let Extended::Made(made) = queue.extend(&mut pass, last) else {
        panic!(rt; "nobody else makes one");
    };
    assert!(rt; (made.id, made.slot) == (4, 0));
    assert!(rt; !queue.confirm(&mut pass, 0, 0));
    assert!(rt; queue.confirm(&mut pass, 0, 4));
    leave_a_segment(&rt, &queue, &mut pass);
    assert!(rt; pass.spares() == 0);
    assert!(rt; queue.claim(&mut pass).is_ok());
    assert!(rt; (pass.spares(), pass.spare(0)) == (1, Some(1)));
    queue.give_back(&mut pass);
    assert!(rt; pass.spares() == 0);
    Ok(())
}

#[test]
fn four_slots_serve_a_hundred_segments(rt: HostRuntime) -> Result<(), Fail> {
    let client = SemClient::new(1);
    let (queue, mut pass) = Queue::new(rt.alloc(), SCARCE, CancelMode::Smart, client)?;
    assert!(rt; next_wait(&queue, &mut pass) == 0);
    assert!(rt; take_permit(&queue, &mut pass).word == 4_294_967_297);
    for _ in 0..100_u64 {
        leave_a_segment(&rt, &queue, &mut pass);
    }
    assert!(rt; next_wait(&queue, &mut pass) == 3_200);
    assert!(rt; queue.last_segment(&mut pass).id == 99);
    let Found::Over(99) = queue.find_segment(&mut pass, 98) else {
        panic!(rt; "all its cells are settled");
    };
    Ok(())
}

#[test]
fn no_slot_is_free(rt: HostRuntime) -> Result<(), Fail> {
    let client = SemClient::new(1);
    let (queue, mut pass) = Queue::new(rt.alloc(), SCARCE, CancelMode::Smart, client)?;
    assert!(rt; !queue.is_ample());
    assert!(rt; queue.claim_spares(&mut pass, 1).is_ok());
    assert!(rt; (pass.spares(), pass.spare(0)) == (1, Some(1)));
    let last = queue.last_segment(&mut pass);
    assert!(rt; (last.id, last.slot) == (0, 0));
    let Extended::Made(made) = queue.extend(&mut pass, last) else {
        panic!(rt; "nobody else makes one");
    };
    assert!(rt; (made.id, made.slot) == (1, 1));
    assert!(rt; queue.claim_spares(&mut pass, 2).is_ok());
    assert!(rt; (pass.spares(), pass.spare(0), pass.spare(1)) == (2, Some(2), Some(3)));
    let Extended::Made(made) = queue.extend(&mut pass, made) else {
        panic!(rt; "nobody else makes one");
    };
    assert!(rt; (made.id, made.slot) == (2, 3));
    assert!(rt; queue.claim_spares(&mut pass, 2).is_err());
    assert!(rt; (pass.spares(), pass.spare(0)) == (1, Some(2)));
    Ok(())
}
