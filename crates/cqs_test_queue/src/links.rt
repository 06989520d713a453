//! The links between slots, by single calls: after a segment in the middle left, after an
//! extension, and in a slot that is used again.

ghost use Rattle.cqs_core.specs.declared.doings.Doing.TheVariants.{Idle};
ghost use Rattle.cqs_rule.specs.Passes.{client_of, pass_view, IsOf};
ghost use Rattle.cqs_semaphore_client.specs.SemaphoreMade.{sync_of};
ghost use Rattle.std.specs.Prelude.{◌≡◌, false};

use crate::segments::{CONFIG, SCARCE, come, leave_a_segment, wait_in_line};
use cqs_cancel::{Left, cancel};
use cqs_find::next_of;
use cqs_rule::{CancelMode, FoundSegment, Pass, Queue};
use cqs_segment::Extended;
use cqs_semaphore_client::{SemClient, next_wait, take_permit};
use cqs_words::LinkWord;
use std::process::Abort;
use std::test::Fail;

// Which segment and slot the link of a segment names that stands, if it names any.
fn named(
    rt: &impl Abort,
    queue: &Queue<SemClient>,
    pass: &mut Pass<SemClient>,
    segment: u64,
) -> Option<LinkWord>
    requires belongs { IsOf queue.now pass.old }
    requires idle { (pass_view pass.old).facts.doing ≡ Idle }
    ensures belongs { IsOf queue.now pass.new }
    ensures idle { (pass_view pass.new).facts.doing ≡ Idle }
{
    assert!(rt; segment < 4_096);
    let FoundSegment::At(slot) = queue.find_segment(pass, segment) else {
        panic!(rt; "it stands");
    };
    next_of(queue, pass, slot, segment)
}

// Behind one who waits, one more comes, and leaves the line.
fn come_behind_and_leave(rt: &impl Abort, queue: &Queue<SemClient>, pass: &mut Pass<SemClient>)
    requires belongs { IsOf queue.now pass.old }
    requires plain { sync_of (client_of queue.now) ≡ false }
    requires idle { (pass_view pass.old).facts.doing ≡ Idle }
    ensures belongs { IsOf queue.now pass.new }
    ensures idle { (pass_view pass.new).facts.doing ≡ Idle }
{
    assert!(rt; next_wait(queue, pass) < queue.limit());
    assert!(rt; take_permit(queue, pass).word == 4_294_967_295);
    let wait = wait_in_line(rt, queue, pass);
    let Left::Gone = cancel(queue, pass, wait) else {
        panic!(rt; "nobody served the wait");
    };
}

// So many do.
fn leave_behind(rt: &impl Abort, queue: &Queue<SemClient>, pass: &mut Pass<SemClient>, many: u64)
    requires belongs { IsOf queue.now pass.old }
    requires plain { sync_of (client_of queue.now) ≡ false }
    requires idle { (pass_view pass.old).facts.doing ≡ Idle }
    ensures belongs { IsOf queue.now pass.new }
    ensures idle { (pass_view pass.new).facts.doing ≡ Idle }
{
    for _ in 0..many {
        come_behind_and_leave(rt, queue, pass);
    }
}

#[test]
fn a_segment_in_the_middle_is_passed_by(rt: HostRuntime) -> Result<(), Fail> {
    let client = SemClient::new(1);
    let (queue, mut pass) = Queue::ample(rt.alloc(), CONFIG, CancelMode::Smart, client)?;
    assert!(rt; next_wait(&queue, &mut pass) == 0);
    assert!(rt; take_permit(&queue, &mut pass).word == 4_294_967_297);
    let wait = come(&rt, &queue, &mut pass);
    assert!(rt; wait.number() == 0);
    leave_behind(&rt, &queue, &mut pass, 62);
    assert!(rt; named(&rt, &queue, &mut pass, 0).is_none());
    leave_behind(&rt, &queue, &mut pass, 1);
    assert!(rt; named(&rt, &queue, &mut pass, 0) == Some(LinkWord { id: 2, slot: 2 }));
    assert!(rt; named(&rt, &queue, &mut pass, 2).is_none());
    leave_behind(&rt, &queue, &mut pass, 32);
    assert!(rt; named(&rt, &queue, &mut pass, 0) == Some(LinkWord { id: 3, slot: 3 }));
    Ok(())
}

#[test]
fn a_link_leads_to_a_new_segment(rt: HostRuntime) -> Result<(), Fail> {
    let client = SemClient::new(1);
    let (queue, mut pass) = Queue::ample(rt.alloc(), CONFIG, CancelMode::Smart, client)?;
    assert!(rt; next_wait(&queue, &mut pass) == 0);
    assert!(rt; take_permit(&queue, &mut pass).word == 4_294_967_297);
    leave_a_segment(&rt, &queue, &mut pass);
    assert!(rt; pass.spares() == 0);
    assert!(rt; queue.claim(&mut pass).is_ok());
    assert!(rt; (pass.spares(), pass.spare(0)) == (1, Some(0)));
    let last = queue.last_segment(&mut pass);
    assert!(rt; (last.id, last.slot) == (3, 3));
    let Extended::Made(made) = queue.extend(&mut pass, last) else {
        panic!(rt; "nobody else makes one");
    };
    assert!(rt; (made.id, made.slot) == (4, 0));
    assert!(rt; named(&rt, &queue, &mut pass, 3) == Some(LinkWord { id: 4, slot: 0 }));
    assert!(rt; named(&rt, &queue, &mut pass, 4).is_none());
    Ok(())
}

// Each slot was the home of two segments at least, and of each but the last a link leads to the
// next.
#[test]
fn a_link_names_nothing_in_a_slot_used_again(rt: HostRuntime) -> Result<(), Fail> {
    let client = SemClient::new(1);
    let (queue, mut pass) = Queue::new(rt.alloc(), SCARCE, CancelMode::Smart, client)?;
    assert!(rt; next_wait(&queue, &mut pass) == 0);
    assert!(rt; take_permit(&queue, &mut pass).word == 4_294_967_297);
    for _ in 0..8_u64 {
        leave_a_segment(&rt, &queue, &mut pass);
    }
    assert!(rt; queue.last_segment(&mut pass).id == 7);
    assert!(rt; named(&rt, &queue, &mut pass, 7).is_none());
    Ok(())
}
