//! The jump of the resume counter, by single steps: one that is made, and one that comes too late.

ghost use Rattle.cqs_core.specs.declared.doings.Doing.TheVariants.{Owes};
ghost use Rattle.cqs_rule_laws.specs.Jumped.{AreOut};
ghost use Rattle.cqs_rule.specs.Passes.{pass_view, IsOf};
ghost use Rattle.std.specs.Prelude.{◌≡◌, ◌+◌, ◌<◌};

use crate::line::is_for_one;
use crate::segments::{CONFIG, come, leave_a_segment};
use cqs_find::{Found, find, place_after};
use cqs_resume::jump;
use cqs_rule::{CancelMode, Pass, Queue, RESUMES_WORD, Reaches};
use cqs_semaphore_client::{SemClient, give_permit, next_wait, take_permit};
use std::process::Abort;
use std::test::Fail;

// Draws the first number, and passes over it. It answers the first number of the segment that was
// seen to stand.
fn pass_over_first(rt: &impl Abort, queue: &Queue<SemClient>, pass: &mut Pass<SemClient>) -> u64
    requires belongs { IsOf queue.now pass.old }
    requires owes { (pass_view pass.old).facts.doing ≡ Owes }
    ensures belongs { IsOf queue.now pass.new }
    ensures owes { (pass_view pass.new).facts.doing ≡ Owes }
    ensures after { 0 + 1 < result }
    ensures out { AreOut 1 result (pass_view pass.new) }
{
    let number = queue.add_table::<Reaches>(pass, RESUMES_WORD, 1);
    assert!(rt; number == 0);
    let Ok(Found::Over(next)) = find(queue, pass, number) else {
        panic!(rt; "all cells of its segment are settled");
    };
    let after = place_after(queue, pass, number);
    queue.pass_over(pass, after);
    next
}

#[test]
fn a_jump_is_made_and_another_comes_too_late(rt: HostRuntime) -> Result<(), Fail> {
    let client = SemClient::new(1);
    let (queue, mut pass) = Queue::ample(rt.alloc(), CONFIG, CancelMode::Smart, client)?;
    assert!(rt; next_wait(&queue, &mut pass) == 0);
    assert!(rt; take_permit(&queue, &mut pass).word == 4_294_967_297);
    leave_a_segment(&rt, &queue, &mut pass);
    leave_a_segment(&rt, &queue, &mut pass);
    let wait = come(&rt, &queue, &mut pass);
    assert!(rt; wait.number() == 64);
    assert!(rt; pass.held() == 1);
    assert!(rt; is_for_one(give_permit(&queue, &mut pass)));
    let next = pass_over_first(&rt, &queue, &mut pass);
    assert!(rt; next == 64);
    assert!(rt; jump(&queue, &mut pass, 1, next) == Ok(()));
    assert!(rt; jump(&queue, &mut pass, 1, next) == Err(64));
    assert!(rt; queue.add_table::<Reaches>(&mut pass, RESUMES_WORD, 1) == 64);
    Ok(())
}
