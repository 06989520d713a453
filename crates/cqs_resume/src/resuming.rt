//! The resume, and the end of one that was handed back.

ghost use Rattle.std.specs.Prelude.{◌≡◌, ◌<◌, true, None, false};
ghost use Rattle.cqs_core.specs.declared.doings.Doing.TheVariants as doing;
ghost use Rattle.cqs_rule_laws.specs.Jumped.{AreOut};
ghost use Rattle.cqs_rule_laws.specs.Manner.{IsSmart};
ghost use Rattle.cqs_rule.specs.Owed.{HasUnder, under_payload, under_ticket, under_reached};
ghost use Rattle.cqs_rule.specs.Passes.{ample_of, pass_view, client_of, IsOf};
ghost use Rattle.cqs_resume.specs.Resumes.{HasGoneOn, HasResumed, IsFurther, most_passed_over};

use crate::jumping::leap;
use crate::meeting::meet;
use crate::resumed::Resumed;
use core::mem::replace_with;
use cqs_rule::{Client, Pass, Queue, RESUMES_WORD, Reaches, Under};

// How many numbers one call passes over.
pub(crate) const MOST_PASSED_OVER: u32 = 64;

/// Draws a number for a pass that owes a resumption, and serves the waiter there, or leaves the
/// payload for the suspend to come or for the canceller. Cells whose waiters have left are passed
/// over. It is handed back where it has passed over 64 numbers, or has the ticket of one whose
/// segment isn't made and no slot for that. It is compiled into its caller, which says what stands
/// apart.
#[inline(always)]
pub fn resume<C: Client>(queue: &Queue<C>, pass: &mut Pass<C>, payload: u32) -> Resumed
    requires belongs { IsOf queue.now pass.old }
    requires smart { IsSmart (C.primitive (client_of queue.now)).manner.leaving }
    requires plain { (C.primitive (client_of queue.now)).manner.watches ≡ false }
    requires owes { (pass_view pass.old).facts.doing ≡ doing.Owes }
    requires payload { (pass_view pass.old).facts.has.payload ≡ payload }
    ensures belongs { IsOf queue.now pass.new }
    ensures resumed { HasGoneOn most_passed_over None payload pass.old result pass.new }
    ensures ample { ample_of queue.now ≡ true
        → HasResumed most_passed_over None payload pass.old result pass.new }
{
    let number = queue.add_table::<Reaches>(pass, RESUMES_WORD, 1);
    match meet(queue, pass, number, number, payload) {
        Ok(resumed) => resumed,
        Err(next) => go_on(queue, pass, payload, MOST_PASSED_OVER - 1, number + 1, next),
    }
}

/// Goes on with a resumption that was handed back, by a count of its own. This stands apart from
/// its caller, and gets the pass by value: with its address the pass would lie in memory in the
/// caller too, also where nothing is to be finished.
#[inline(always)]
pub fn finish<C: Client>(queue: &Queue<C>, pass: &mut Pass<C>, under: Under) -> Resumed
    requires belongs { IsOf queue.now pass.old }
    requires smart { IsSmart (C.primitive (client_of queue.now)).manner.leaving }
    requires plain { (C.primitive (client_of queue.now)).manner.watches ≡ false }
    requires owes { HasUnder (pass_view pass.old).facts under }
    ensures belongs { IsOf queue.now pass.new }
    ensures resumed { HasGoneOn most_passed_over (under_ticket under)
        (under_payload under) pass.old result pass.new }
    ensures ample { ample_of queue.now ≡ true → HasResumed most_passed_over (under_ticket under)
        (under_payload under) pass.old result pass.new }
    ensures further { ample_of queue.now ≡ true → IsFurther (under_reached under) result }
{
    replace_with(
        pass,
        under,
        |pass, under|
            requires belongs { IsOf queue.now pass }
            requires smart { IsSmart (C.primitive (client_of queue.now)).manner.leaving }
            requires plain { (C.primitive (client_of queue.now)).manner.watches ≡ false }
            requires owes { HasUnder (pass_view pass).facts under }
        { finish_apart(queue, pass, under) },
    )
}

// The same with the pass by value, which it gives back.
#[inline(never)]
fn finish_apart<C: Client>(queue: &Queue<C>, pass: Pass<C>, under: Under) -> (Pass<C>, Resumed)
    requires belongs { IsOf queue.now pass }
    requires smart { IsSmart (C.primitive (client_of queue.now)).manner.leaving }
    requires plain { (C.primitive (client_of queue.now)).manner.watches ≡ false }
    requires owes { HasUnder (pass_view pass).facts under }
    ensures belongs { IsOf queue.now result.0 }
    ensures resumed { HasGoneOn most_passed_over (under_ticket under)
        (under_payload under) pass result.1 result.0 }
    ensures ample { ample_of queue.now ≡ true → HasResumed most_passed_over (under_ticket under)
        (under_payload under) pass result.1 result.0 }
    ensures further { ample_of queue.now ≡ true → IsFurther (under_reached under) result.1 }
{
    let mut pass = pass;
    let resumed = end(queue, &mut pass, under);
    (pass, resumed)
}

// The same in the place of the call.
fn end<C: Client>(queue: &Queue<C>, pass: &mut Pass<C>, under: Under) -> Resumed
    requires belongs { IsOf queue.now pass.old }
    requires smart { IsSmart (C.primitive (client_of queue.now)).manner.leaving }
    requires plain { (C.primitive (client_of queue.now)).manner.watches ≡ false }
    requires owes { HasUnder (pass_view pass.old).facts under }
    ensures belongs { IsOf queue.now pass.new }
    ensures resumed { HasGoneOn most_passed_over (under_ticket under)
        (under_payload under) pass.old result pass.new }
    ensures ample { ample_of queue.now ≡ true → HasResumed most_passed_over (under_ticket under)
        (under_payload under) pass.old result pass.new }
    ensures further { ample_of queue.now ≡ true → IsFurther (under_reached under) result }
{
    let reached = under.reached();
    let (payload, ticket) = queue.spend_under(pass, under);
    let Some(number) = ticket else {
        return go_on(queue, pass, payload, MOST_PASSED_OVER, 0, 0);
    };
    match meet(queue, pass, number, reached, payload) {
        Ok(resumed) => resumed,
        Err(next) => go_on(queue, pass, payload, MOST_PASSED_OVER, number + 1, next),
    }
}

// Passes over numbers until the resumption ends, or until it has passed over this many. Before the
// first draw it tries a jump from the one to the other number, where the second comes later, and
// before each further one past what the search for the number before told to be out. It is
// compiled into its callers too: a call of it would get the pass by its address, and then the
// pass would lie in memory also where a resume ends at its first number.
#[inline(always)]
pub(crate) fn go_on<C: Client>(
    queue: &Queue<C>,
    pass: &mut Pass<C>,
    payload: u32,
    most: u32,
    from: u64,
    to: u64,
) -> Resumed
    requires belongs { IsOf queue.now pass.old }
    requires smart { IsSmart (C.primitive (client_of queue.now)).manner.leaving }
    requires plain { (C.primitive (client_of queue.now)).manner.watches ≡ false }
    requires owes { (pass_view pass.old).facts.doing ≡ doing.Owes }
    requires payload { (pass_view pass.old).facts.has.payload ≡ payload }
    requires some { 0 < most }
    requires out { AreOut from to (pass_view pass.old) }
    ensures belongs { IsOf queue.now pass.new }
    ensures resumed { HasGoneOn most None payload pass.old result pass.new }
{
    let mut left = most;
    let mut from = from;
    let mut to = to;
    loop {
        leap(queue, pass, from, to);
        let number = queue.add_table::<Reaches>(pass, RESUMES_WORD, 1);
        match meet(queue, pass, number, number, payload) {
            Ok(resumed) => return resumed,
            Err(next) => to = next,
        }
        from = number + 1;
        left -= 1;
        if left == 0 {
            return Resumed::Under(queue.under_of(pass, payload, None, number));
        }
    }
}
