//! The suspend of a synchronous queue.

ghost use Rattle.std.specs.Prelude.{◌≡◌, true};
ghost use Rattle.cqs_core.specs.declared.doings.Doing.TheVariants as doing;
ghost use Rattle.cqs_rule.specs.Claims.{CanExtend};
ghost use Rattle.cqs_rule.specs.Passes.{pass_view, client_of, IsOf};
ghost use Rattle.cqs_rule_laws.specs.Placed.{KnowsPlace};
ghost use Rattle.cqs_suspend.specs.SyncSuspends.{HasFoundBroken, IsBrokenLast, SyncSuspends};

use crate::placing::place;
use cqs_cell::{install, look, take_watched};
use cqs_rule::{ClientWords, Draws, Finds, Pass, Place, Queue, SUSPENDS_WORD, Wait};
use cqs_words::CellState;

/// What became of a suspend of a synchronous queue.
#[derive(Drop)]
pub enum SyncSuspended {
    /// The cell was empty, and the caller waits.
    Waits(Wait),
    /// The resume of this number came first, and left this payload.
    Took { payload: u32, number: u64 },
    /// The resume of this number came first, and took its value back: the number is lost, and the
    /// caller doesn't wait.
    Broke(u64),
}

/// Draws a number for a pass at the door, and waits under it, or takes the value that its resume
/// watches, or finds the cell broken. A spare slot is needed as by `suspend`.
pub fn suspend_sync<C: ClientWords>(queue: &Queue<C>, pass: &mut Pass<C>) -> SyncSuspended
    requires belongs { IsOf queue.now pass.old }
    requires sync { (C.primitive (client_of queue.now)).manner.watches ≡ true }
    requires spare { CanExtend queue.now pass.old }
    requires door { (pass_view pass.old).facts.doing ≡ doing.Door }
    ensures belongs { IsOf queue.now pass.new }
    ensures suspends { SyncSuspends pass.old result pass.new }
{
    let number = queue.add_table::<Draws>(pass, SUSPENDS_WORD, 1);
    let at = place(queue, pass, number);
    match install(queue, pass, at) {
        Ok(()) => SyncSuspended::Waits(queue.wait_of(pass, at)),
        Err(_) => match take_watched(queue, pass, at, 0) {
            Ok(()) => SyncSuspended::Took { payload: 0, number },
            Err(cell) => match cell.state {
                CellState::Value => {
                    let payload = cell.payload;
                    match take_watched(queue, pass, at, payload) {
                        Ok(()) => SyncSuspended::Took { payload, number },
                        Err(_) => {
                            find_broken(queue, pass, at);
                            SyncSuspended::Broke(number)
                        }
                    }
                }
                _ => {
                    find_broken(queue, pass, at);
                    SyncSuspended::Broke(number)
                }
            },
        },
    }
}

// The load by which the pass meets its cell, which it found broken last.
fn find_broken<C: ClientWords>(queue: &Queue<C>, pass: &mut Pass<C>, at: Place)
    requires belongs { IsOf queue.now pass.old }
    requires sync { (C.primitive (client_of queue.now)).manner.watches ≡ true }
    requires drawn { (pass_view pass.old).facts.doing ≡ doing.Drawn at.index }
    requires place { KnowsPlace (pass_view pass.old) at }
    requires last { IsBrokenLast at.index (pass_view pass.old).facts.last }
    ensures belongs { IsOf queue.now pass.new }
    ensures broken { HasFoundBroken at.index pass.old pass.new }
{
    match look::<C, Finds>(queue, pass, at).state {
        CellState::Broken => {}
        _ => unreachable!(),
    }
}
