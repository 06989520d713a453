//! One exchange on a cell.

ghost use Rattle.std.specs.Prelude.{◌≡◌, ◌<◌, ◌^◌, IfOk, IfErr};
ghost use Rattle.cqs_cell.specs.Crossings.{
  Crosses,
  Works,
  Owns,
  Looked,
  Finds,
  Fits,
  Makes,
  Leaves,
  IsLast,
  IsSure,
};
ghost use Rattle.cqs_cell.specs.Transitions.{HasMade, HasMissedCell, HasMissedWord};
ghost use Rattle.cqs_rule_laws.specs.Manner.{Suits};
ghost use Rattle.cqs_rule.specs.Passes.{pass_view, client_of, IsOf};
ghost use Rattle.cqs_rule_laws.specs.Placed.{KnowsPlace};

use crate::found::cell_found;
use cqs_rule::{ClientWords, Kind, Pass, Place, Queue};
use cqs_words::{CellState, CellWord};

// The exchange that the step K makes, from a cell in the state found, with this payload, to one in
// the state made, with what is left. It answers the cell that was found where that is another.
#[inline(always)]
pub(crate) fn cross<C: ClientWords, K: Kind>(
    queue: &Queue<C>,
    pass: &mut Pass<C>,
    at: Place,
    found: CellState,
    payload: u32,
    made: CellState,
    left: u32,
) -> Result<(), CellWord>
    requires belongs { IsOf queue.now pass.old }
    requires suits { Suits (C.primitive (client_of queue.now)).manner K.step }
    requires works { Works K.step at.index (pass_view pass.old).facts }
    requires owns { Owns K.step at.index (pass_view pass.old).facts }
    requires looked { Looked K.step (pass_view pass.old) }
    requires place { KnowsPlace (pass_view pass.old) at }
    requires index { at.index < 2 ^ 40 }
    requires payload { payload < 2 ^ 20 }
    requires left { left < 2 ^ 20 }
    requires fits { Fits K.step payload }
    requires finds { Finds K.step found }
    requires makes { Makes K.step made }
    requires leaves { Leaves K.step (pass_view pass.old).facts payload left }
    ensures belongs { IsOf queue.now pass.new }
    ensures made { IfOk result (λ _. HasMade K.step at.index payload pass.old pass.new) }
    ensures missed { IfErr result
        (λ cell. HasMissedCell K.step at.index payload cell pass.old pass.new) }
{
    let index = at.index;
    let expected = CellWord {
        index,
        state: found,
        payload,
    };
    let new = CellWord {
        index,
        state: made,
        payload: left,
    };
    match exchange::<C, K>(queue, pass, at, payload, expected.pack(), new.pack()) {
        Ok(()) => Ok(()),
        Err(word) => Err(cell_found(word, index)),
    }
}

// The same, of a cell that the pass found so last and from which nobody else goes on: it is made.
#[inline(always)]
pub(crate) fn cross_surely<C: ClientWords, K: Kind>(
    queue: &Queue<C>,
    pass: &mut Pass<C>,
    at: Place,
    found: CellState,
    payload: u32,
    made: CellState,
    left: u32,
)
    requires belongs { IsOf queue.now pass.old }
    requires suits { Suits (C.primitive (client_of queue.now)).manner K.step }
    requires works { Works K.step at.index (pass_view pass.old).facts }
    requires owns { Owns K.step at.index (pass_view pass.old).facts }
    requires looked { Looked K.step (pass_view pass.old) }
    requires place { KnowsPlace (pass_view pass.old) at }
    requires index { at.index < 2 ^ 40 }
    requires payload { payload < 2 ^ 20 }
    requires left { left < 2 ^ 20 }
    requires fits { Fits K.step payload }
    requires finds { Finds K.step found }
    requires makes { Makes K.step made }
    requires leaves { Leaves K.step (pass_view pass.old).facts payload left }
    requires last { IsLast K.step at.index payload (pass_view pass.old).facts.last }
    requires sure { IsSure (pass_view pass.old).opening.sync K.step }
    ensures belongs { IsOf queue.now pass.new }
    ensures made { HasMade K.step at.index payload pass.old pass.new }
{
    match cross::<C, K>(queue, pass, at, found, payload, made, left) {
        Ok(()) => {}
        Err(_) => unreachable!(),
    }
}

// The exchange itself, from the word of a cell with this payload to another word. It answers the
// word that was found where that is another.
#[inline(always)]
fn exchange<C: ClientWords, K: Kind>(
    queue: &Queue<C>,
    pass: &mut Pass<C>,
    at: Place,
    payload: u32,
    expected: u64,
    new: u64,
) -> Result<(), u64>
    requires belongs { IsOf queue.now pass.old }
    requires suits { Suits (C.primitive (client_of queue.now)).manner K.step }
    requires cell { Crosses K.step (pass_view pass.old) at payload expected new }
    ensures belongs { IsOf queue.now pass.new }
    ensures made { IfOk result (λ _. HasMade K.step at.index payload pass.old pass.new) }
    ensures missed { IfErr result
        (λ word. HasMissedWord K.step at.index payload word pass.old pass.new) }
{
    let _payload = payload;
    let found = queue.swap_table::<K>(pass, at.word, expected, new);
    if found == expected {
        Ok(())
    } else {
        Err(found)
    }
}
