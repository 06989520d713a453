//! The resume of a synchronous queue, and the end of one that was handed back.

ghost use Rattle.std.specs.Prelude.{◌≡◌, ◌<◌, true, None};
ghost use Rattle.cqs_core.specs.declared.doings.Doing.TheVariants as doing;
ghost use Rattle.cqs_rule_laws.specs.Jumped.{AreOut};
ghost use Rattle.cqs_rule_laws.specs.Manner.{IsSmart};
ghost use Rattle.cqs_rule.specs.Owed.{HasUnder, under_payload, under_ticket, under_reached};
ghost use Rattle.cqs_rule.specs.Passes.{ample_of, pass_view, client_of, IsOf};
ghost use Rattle.cqs_resume.specs.Resumes.{most_passed_over};
ghost use Rattle.cqs_resume.specs.SyncResumes.{HasSyncGoneOn, HasSyncResumed, IsSyncFurther};

use crate::jumping::leap;
use crate::resuming::MOST_PASSED_OVER;
use crate::sync_meeting::meet_sync;
use crate::sync_resumed::SyncResumed;
use core::mem::replace_with;
use cqs_rule::{Client, Pass, Queue, RESUMES_WORD, Reaches, Under};

/// Draws a number for a pass that owes a resumption, and serves the waiter there, or leaves the
/// value and watches it: it is taken, or taken back after as many looks as the queue asks. Where
/// the waiter is leaving, the resumption goes on once that has ended. Cells whose waiters have left
/// are passed over, at most 64 in a call.
pub fn resume_sync<C: Client>(queue: &Queue<C>, pass: &mut Pass<C>, payload: u32) -> SyncResumed
    requires belongs { IsOf queue.now pass.old }
    requires smart { IsSmart (C.primitive (client_of queue.now)).manner.leaving }
    requires sync { (C.primitive (client_of queue.now)).manner.watches ≡ true }
    requires owes { (pass_view pass.old).facts.doing ≡ doing.Owes }
    requires payload { (pass_view pass.old).facts.has.payload ≡ payload }
    ensures belongs { IsOf queue.now pass.new }
    ensures resumed { HasSyncGoneOn most_passed_over None payload pass.old result pass.new }
    ensures ample { ample_of queue.now ≡ true
        → HasSyncResumed most_passed_over None payload pass.old result pass.new }
{
    go_on_sync(queue, pass, payload, MOST_PASSED_OVER, 0, 0)
}

/// Goes on with a resumption that was handed back, by a count of its own: from its open ticket, or
/// from the next number. This stands apart from its caller, and gets the pass by value, as `finish`
/// does.
#[inline(always)]
pub fn finish_sync<C: Client>(queue: &Queue<C>, pass: &mut Pass<C>, under: Under) -> SyncResumed
    requires belongs { IsOf queue.now pass.old }
    requires smart { IsSmart (C.primitive (client_of queue.now)).manner.leaving }
    requires sync { (C.primitive (client_of queue.now)).manner.watches ≡ true }
    requires owes { HasUnder (pass_view pass.old).facts under }
    ensures belongs { IsOf queue.now pass.new }
    ensures resumed { HasSyncGoneOn most_passed_over (under_ticket under)
        (under_payload under) pass.old result pass.new }
    ensures ample { ample_of queue.now ≡ true → HasSyncResumed most_passed_over (under_ticket under)
        (under_payload under) pass.old result pass.new }
    ensures further { ample_of queue.now ≡ true → IsSyncFurther (under_reached under) result }
{
    replace_with(
        pass,
        under,
        |pass, under|
            requires belongs { IsOf queue.now pass }
            requires smart { IsSmart (C.primitive (client_of queue.now)).manner.leaving }
            requires sync { (C.primitive (client_of queue.now)).manner.watches ≡ true }
            requires owes { HasUnder (pass_view pass).facts under }
        { finish_sync_apart(queue, pass, under) },
    )
}

// The same with the pass by value, which it gives back.
#[inline(never)]
fn finish_sync_apart<C: Client>(
    queue: &Queue<C>,
    pass: Pass<C>,
    under: Under,
) -> (Pass<C>, SyncResumed)
    requires belongs { IsOf queue.now pass }
    requires smart { IsSmart (C.primitive (client_of queue.now)).manner.leaving }
    requires sync { (C.primitive (client_of queue.now)).manner.watches ≡ true }
    requires owes { HasUnder (pass_view pass).facts under }
    ensures belongs { IsOf queue.now result.0 }
    ensures resumed { HasSyncGoneOn most_passed_over (under_ticket under)
        (under_payload under) pass result.1 result.0 }
    ensures ample { ample_of queue.now ≡ true → HasSyncResumed most_passed_over (under_ticket under)
        (under_payload under) pass result.1 result.0 }
    ensures further { ample_of queue.now ≡ true → IsSyncFurther (under_reached under) result.1 }
{
    let mut pass = pass;
    let resumed = end_sync(queue, &mut pass, under);
    (pass, resumed)
}

// The same in the place of the call.
fn end_sync<C: Client>(queue: &Queue<C>, pass: &mut Pass<C>, under: Under) -> SyncResumed
    requires belongs { IsOf queue.now pass.old }
    requires smart { IsSmart (C.primitive (client_of queue.now)).manner.leaving }
    requires sync { (C.primitive (client_of queue.now)).manner.watches ≡ true }
    requires owes { HasUnder (pass_view pass.old).facts under }
    ensures belongs { IsOf queue.now pass.new }
    ensures resumed { HasSyncGoneOn most_passed_over (under_ticket under)
        (under_payload under) pass.old result pass.new }
    ensures ample { ample_of queue.now ≡ true → HasSyncResumed most_passed_over (under_ticket under)
        (under_payload under) pass.old result pass.new }
    ensures further { ample_of queue.now ≡ true → IsSyncFurther (under_reached under) result }
{
    let reached = under.reached();
    let (payload, ticket) = queue.spend_under(pass, under);
    let Some(number) = ticket else {
        return go_on_sync(queue, pass, payload, MOST_PASSED_OVER, 0, 0);
    };
    match meet_sync(queue, pass, number, reached, payload) {
        Ok(resumed) => resumed,
        Err(next) => go_on_sync(queue, pass, payload, MOST_PASSED_OVER, number + 1, next),
    }
}

// Passes over numbers until the resumption ends or is left to a canceller, or until it has passed
// over this many. Before the first draw it tries a jump from the one to the other number, where the
// second comes later, and before each further one past what the search for the number before told
// to be out.
fn go_on_sync<C: Client>(
    queue: &Queue<C>,
    pass: &mut Pass<C>,
    payload: u32,
    most: u32,
    from: u64,
    to: u64,
) -> SyncResumed
    requires belongs { IsOf queue.now pass.old }
    requires smart { IsSmart (C.primitive (client_of queue.now)).manner.leaving }
    requires sync { (C.primitive (client_of queue.now)).manner.watches ≡ true }
    requires owes { (pass_view pass.old).facts.doing ≡ doing.Owes }
    requires payload { (pass_view pass.old).facts.has.payload ≡ payload }
    requires some { 0 < most }
    requires out { AreOut from to (pass_view pass.old) }
    ensures belongs { IsOf queue.now pass.new }
    ensures resumed { HasSyncGoneOn most None payload pass.old result pass.new }
{
    let mut left = most;
    let mut from = from;
    let mut to = to;
    loop {
        leap(queue, pass, from, to);
        let number = queue.add_table::<Reaches>(pass, RESUMES_WORD, 1);
        match meet_sync(queue, pass, number, number, payload) {
            Ok(resumed) => return resumed,
            Err(next) => to = next,
        }
        from = number + 1;
        left -= 1;
        if left == 0 {
            return SyncResumed::Under(queue.under_of(pass, payload, None, number));
        }
    }
}
