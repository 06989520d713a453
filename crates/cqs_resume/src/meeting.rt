//! One number of a resume: its cell is tried until a step is made there.

ghost use Rattle.std.specs.Prelude.{◌≡◌, false};
ghost use Rattle.cqs_core.specs.declared.doings.Doing.TheVariants as doing;
ghost use Rattle.cqs_rule_laws.specs.Manner.{IsSmart};
ghost use Rattle.cqs_rule.specs.Passes.{pass_view, client_of, IsOf};
ghost use Rattle.cqs_resume.specs.Meets.{HasMet};

use crate::resumed::Resumed;
use cqs_cell::{delegate, leave_value, look, serve};
use cqs_find::{Found, locate, place_after};
use cqs_rule::{Client, Meets, Pass, Queue};
use cqs_words::CellState;

/// Ends the resumption at the cell of the number whose ticket is open, or passes over it: the error
/// is a later number, and all between were taken out; it is the next one, or that which the search
/// told. A waiter is tried first. Whatever is found instead is what is tried next: a cell only goes
/// on, from Empty to Waiter, from there to Cancelling, and then it is settled. Where its waiter was
/// refused to leave, the client is told that the resumption ended there. Where the segment was
/// taken out, the number is passed over. Where it isn't made, and there is no slot for it, the
/// resumption is handed back, with its ticket and the last number that was drawn for it.
#[inline(always)]
pub(crate) fn meet<C: Client>(
    queue: &Queue<C>,
    pass: &mut Pass<C>,
    number: u64,
    reached: u64,
    payload: u32,
) -> Result<Resumed, u64>
    requires belongs { IsOf queue.now pass.old }
    requires smart { IsSmart (C.primitive (client_of queue.now)).manner.leaving }
    requires plain { (C.primitive (client_of queue.now)).manner.watches ≡ false }
    requires ticket { (pass_view pass.old).facts.doing ≡ doing.Ticket number }
    requires reached { (pass_view pass.old).facts.reached ≡ reached }
    requires payload { (pass_view pass.old).facts.has.payload ≡ payload }
    ensures belongs { IsOf queue.now pass.new }
    ensures met { HasMet payload number pass.old result pass.new }
{
    let at = match locate(queue, pass, number) {
        Ok(Found::At(at)) => at,
        Ok(Found::Over(next)) => {
            let after = place_after(queue, pass, number);
            queue.pass_over(pass, after);
            return Err(next);
        }
        Err(_) => {
            let ticket = Some(number);
            return Ok(Resumed::Under(queue.under_of(pass, payload, ticket, reached)));
        }
    };
    let mut state = match serve(queue, pass, at, payload) {
        Ok(()) => return Ok(Resumed::Served(number)),
        Err(state) => state,
    };
    loop {
        state = match state {
            CellState::Empty => match leave_value(queue, pass, at, payload) {
                Ok(()) => return Ok(Resumed::Left(number)),
                Err(state) => state,
            },
            CellState::Waiter => match serve(queue, pass, at, payload) {
                Ok(()) => return Ok(Resumed::Served(number)),
                Err(state) => state,
            },
            CellState::Cancelling => match delegate(queue, pass, at, payload) {
                Ok(()) => return Ok(Resumed::Left(number)),
                Err(state) => state,
            },
            _ => {
                return match look::<C, Meets>(queue, pass, at).state {
                    CellState::Cancelled => Err(number + 1),
                    CellState::Refused => {
                        C::complete_refused_resume(queue, pass, payload);
                        Ok(Resumed::Refused(number))
                    }
                    _ => unreachable!(),
                };
            }
        };
    }
}
