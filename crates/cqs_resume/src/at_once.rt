//! A resumption where waits leave at once: it ends at its first number.

ghost use Rattle.std.specs.Prelude.{◌≡◌, ◌<◌, true, false};
ghost use Rattle.cqs_core.specs.declared.doings.Doing.TheVariants as doing;
ghost use Rattle.cqs_rule_laws.specs.Manner.{IsAtOnce, OwesFurther};
ghost use Rattle.cqs_rule.specs.Owed.{HasUnder, under_payload, under_ticket};
ghost use Rattle.cqs_rule.specs.Passes.{ample_of, pass_view, client_of, IsOf};
ghost use Rattle.cqs_resume.specs.AtOnce.{HasMetAtOnce, HasBegunAtOnce, HasBegunOrHeld, HasFinishedAtOnce, HasFinishedOrHeld, ShowsPlain};

use cqs_cell::{leave_value, look, serve};
use cqs_find::{Found, locate};
use cqs_rule::{Begins, ClientWords, Misses, Pass, Queue, RESUMES_WORD, Reaches, Under};
use cqs_words::CellState;

/// How a resumption ended where waits leave at once.
#[derive(Drop)]
pub enum EndedAtOnce {
    /// The waiter of this number was served.
    Served(u64),
    /// The value was left in the cell of this number, for its suspend.
    Left(u64),
    /// The waiter of this number had left, and the resumption ended there.
    Missed(u64),
    /// There is no slot for the number's segment; the resumption is still owed.
    Under(Under),
}

/// Draws a number for an idle pass that owes further resumptions, and ends that one there. The pass
/// owes one fewer then.
pub fn begin_at_once<C: ClientWords>(
    queue: &Queue<C>,
    pass: &mut Pass<C>,
    payload: u32,
) -> EndedAtOnce
    requires belongs { IsOf queue.now pass.old }
    requires at_once { IsAtOnce (C.primitive (client_of queue.now)).manner.leaving }
    requires unwatched { (C.primitive (client_of queue.now)).manner.watches ≡ false }
    requires plain { ShowsPlain C.primitive (C.primitive (client_of queue.now)).opening }
    requires several { OwesFurther (C.primitive (client_of queue.now)).manner.source }
    requires idle { (pass_view pass.old).facts.doing ≡ doing.Idle }
    requires further { 0 < (pass_view pass.old).facts.has.further }
    requires payload { (pass_view pass.old).facts.has.payload ≡ payload }
    ensures belongs { IsOf queue.now pass.new }
    ensures begun { HasBegunOrHeld payload pass.old result pass.new }
    ensures ample { ample_of queue.now ≡ true
        → HasBegunAtOnce payload pass.old result pass.new }
{
    let number = queue.add_table::<Begins>(pass, RESUMES_WORD, 1);
    meet_at_once(queue, pass, number, number, payload)
}

/// Ends a resumption that the pass owes: at its open ticket, or at the next number.
pub fn finish_at_once<C: ClientWords>(
    queue: &Queue<C>,
    pass: &mut Pass<C>,
    under: Under,
) -> EndedAtOnce
    requires belongs { IsOf queue.now pass.old }
    requires at_once { IsAtOnce (C.primitive (client_of queue.now)).manner.leaving }
    requires unwatched { (C.primitive (client_of queue.now)).manner.watches ≡ false }
    requires plain { ShowsPlain C.primitive (C.primitive (client_of queue.now)).opening }
    requires owes { HasUnder (pass_view pass.old).facts under }
    ensures belongs { IsOf queue.now pass.new }
    ensures finished { HasFinishedOrHeld (under_ticket under) (under_payload under) pass.old result
        pass.new }
    ensures ample { ample_of queue.now ≡ true
        → HasFinishedAtOnce (under_ticket under) (under_payload under) pass.old result pass.new }
{
    let reached = under.reached();
    let (payload, ticket) = queue.spend_under(pass, under);
    if let Some(number) = ticket {
        return meet_at_once(queue, pass, number, reached, payload);
    }
    let number = queue.add_table::<Reaches>(pass, RESUMES_WORD, 1);
    meet_at_once(queue, pass, number, number, payload)
}

// Ends the resumption at the cell of the number whose ticket is open. A waiter is tried first; a
// cell only goes on, from Empty to Waiter, and from there to a settled state. Where the waiter had
// left, the cell is a hole, and a load that finds it so ends the resumption.
fn meet_at_once<C: ClientWords>(
    queue: &Queue<C>,
    pass: &mut Pass<C>,
    number: u64,
    reached: u64,
    payload: u32,
) -> EndedAtOnce
    requires belongs { IsOf queue.now pass.old }
    requires at_once { IsAtOnce (C.primitive (client_of queue.now)).manner.leaving }
    requires unwatched { (C.primitive (client_of queue.now)).manner.watches ≡ false }
    requires plain { ShowsPlain C.primitive (C.primitive (client_of queue.now)).opening }
    requires ticket { (pass_view pass.old).facts.doing ≡ doing.Ticket number }
    requires reached { (pass_view pass.old).facts.reached ≡ reached }
    requires payload { (pass_view pass.old).facts.has.payload ≡ payload }
    ensures belongs { IsOf queue.now pass.new }
    ensures met { HasMetAtOnce payload number pass.old result pass.new }
{
    let at = match locate(queue, pass, number) {
        Ok(Found::At(at)) => at,
        Ok(Found::Over(_)) => unreachable!(),
        Err(_) => {
            let ticket = Some(number);
            return EndedAtOnce::Under(queue.under_of(pass, payload, ticket, reached));
        }
    };
    let mut state = match serve(queue, pass, at, payload) {
        Ok(()) => return EndedAtOnce::Served(number),
        Err(state) => state,
    };
    loop {
        state = match state {
            CellState::Empty => match leave_value(queue, pass, at, payload) {
                Ok(()) => return EndedAtOnce::Left(number),
                Err(state) => state,
            },
            CellState::Waiter => match serve(queue, pass, at, payload) {
                Ok(()) => return EndedAtOnce::Served(number),
                Err(state) => state,
            },
            _ => match look::<C, Misses>(queue, pass, at).state {
                CellState::Cancelled => return EndedAtOnce::Missed(number),
                _ => unreachable!(),
            },
        };
    }
}
