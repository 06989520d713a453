//! One number of a resume in a synchronous queue: its cell is tried until a step is made there.

ghost use Rattle.std.specs.Prelude.{◌≡◌, true};
ghost use Rattle.cqs_core.specs.declared.doings.Doing.TheVariants as doing;
ghost use Rattle.cqs_rule_laws.specs.Manner.{IsSmart};
ghost use Rattle.cqs_rule.specs.Passes.{pass_view, client_of, IsOf};
ghost use Rattle.cqs_resume.specs.SyncMeets.{HasSyncMet};

use crate::sync_resumed::SyncResumed;
use crate::watching::watch_value;
use cqs_cell::{leave_watched, look, serve};
use cqs_find::{Found, locate, place_after};
use cqs_rule::{Client, Meets, Pass, Queue};
use cqs_words::CellState;

/// As `meet` of a queue that isn't synchronous, but for two states of the cell. A value that is
/// left in an empty cell is watched until it is taken, or taken back. Where the waiter is leaving,
/// the resumption is left to go on once that has ended, with its ticket and the last number that
/// was drawn for it.
pub(crate) fn meet_sync<C: Client>(
    queue: &Queue<C>,
    pass: &mut Pass<C>,
    number: u64,
    reached: u64,
    payload: u32,
) -> Result<SyncResumed, u64>
    requires belongs { IsOf queue.now pass.old }
    requires smart { IsSmart (C.primitive (client_of queue.now)).manner.leaving }
    requires sync { (C.primitive (client_of queue.now)).manner.watches ≡ true }
    requires ticket { (pass_view pass.old).facts.doing ≡ doing.Ticket number }
    requires reached { (pass_view pass.old).facts.reached ≡ reached }
    requires payload { (pass_view pass.old).facts.has.payload ≡ payload }
    ensures belongs { IsOf queue.now pass.new }
    ensures met { HasSyncMet payload number pass.old result pass.new }
{
    let at = match locate(queue, pass, number) {
        Ok(Found::At(at)) => at,
        Ok(Found::Over(next)) => {
            let after = place_after(queue, pass, number);
            queue.pass_over(pass, after);
            return Err(next);
        }
        Err(_) => {
            let ticket = Some(number);
            return Ok(SyncResumed::Under(queue.under_of(pass, payload, ticket, reached)));
        }
    };
    let mut state = match serve(queue, pass, at, payload) {
        Ok(()) => return Ok(SyncResumed::Served(number)),
        Err(state) => state,
    };
    loop {
        state = match state {
            CellState::Empty => match leave_watched(queue, pass, at, payload) {
                Ok(()) => return Ok(watch_value(queue, pass, at)),
                Err(state) => state,
            },
            CellState::Waiter => match serve(queue, pass, at, payload) {
                Ok(()) => return Ok(SyncResumed::Served(number)),
                Err(state) => state,
            },
            CellState::Cancelling => {
                let ticket = Some(number);
                let under = queue.under_of(pass, payload, ticket, reached);
                return Ok(SyncResumed::Handling(number, under));
            }
            _ => {
                return match look::<C, Meets>(queue, pass, at).state {
                    CellState::Cancelled => Err(number + 1),
                    CellState::Refused => {
                        C::complete_refused_resume(queue, pass, payload);
                        Ok(SyncResumed::Refused(number))
                    }
                    _ => unreachable!(),
                };
            }
        };
    }
}
