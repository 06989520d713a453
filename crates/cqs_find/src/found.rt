//! The search for the segment of a number.

ghost use Rattle.std.specs.Prelude.{◌≡◌, ◌⊎◌, ◌/◌, ◌<◌, IfOk, OnErr};
ghost use Rattle.cqs_find.specs.Finds.{Finds, FindsMade, HasSearched, IsCrowded, IsSameAhead, SeesAhead};
ghost use Rattle.cqs_rule_laws.specs.Lists.{Has};
ghost use Rattle.cqs_rule_laws.specs.SegmentSteps.{HasDrawn, OwnStand};
ghost use Rattle.cqs_rule.specs.Passes.{pass_view, IsOf};

use cqs_rule::{
    CELLS, CELLS_WORD, ClientWords, Crowded, FoundSegment, Pass, Place, Queue, SLOT_STRIDE,
};

/// Where a cell was found.
#[derive(Clone, Copy)]
pub enum Found {
    /// At this place.
    At(Place),
    /// Its segment was taken out: all cells from it to below this number are settled. That is the
    /// first number of a segment whose head was found live, or else of the last one.
    Over(u64),
}

/// The place of the cell of a number, which the pass has drawn or waits under: one load where the
/// number's segment is the last, else a look through the heads. A segment that isn't made is made,
/// by a slot that the pass has spare or else claims; Crowded comes only where there is none. The
/// pass keeps where the cell was found.
#[inline(always)]
pub fn find<C: ClientWords>(
    queue: &Queue<C>,
    pass: &mut Pass<C>,
    index: u64,
) -> Result<Found, Crowded>
    requires belongs { IsOf queue.now pass.old }
    requires number { HasDrawn (pass_view pass.old) index
        ⊎ Has index (pass_view pass.old).facts.waits }
    ensures belongs { IsOf queue.now pass.new }
    ensures finds { IfOk result (λ found. Finds index (pass_view pass.new) found) }
    ensures ahead { IfOk result (λ found. SeesAhead found (pass_view pass.old)
        (pass_view pass.new)) }
    ensures searched { HasSearched index pass.old pass.new }
    ensures crowded { OnErr result (IsCrowded index (pass_view pass.old) (pass_view pass.new)) }
{
    match queue.find_segment(pass, index / CELLS) {
        FoundSegment::Far => match queue.make_segment(pass, index) {
            Ok(()) => {
                let segment = queue.find_segment(pass, index / CELLS);
                Ok(keep(queue, pass, index, segment))
            }
            Err(crowded) => Err(crowded),
        },
        segment => Ok(keep(queue, pass, index, segment)),
    }
}

// Where the cell stands, as its segment was found. The pass keeps that.
#[inline(always)]
fn keep<C: ClientWords>(
    queue: &Queue<C>,
    pass: &mut Pass<C>,
    index: u64,
    segment: FoundSegment,
) -> Found
    requires belongs { IsOf queue.now pass.old }
    requires small { index < (pass_view pass.old).cells }
    requires made { FindsMade (index / 32) segment (pass_view pass.old) }
    requires own { OwnStand (pass_view pass.old) (pass_view pass.old) }
    ensures belongs { IsOf queue.now pass.new }
    ensures finds { Finds index (pass_view pass.new) result }
    ensures ahead { IsSameAhead segment result }
    ensures same { pass_view pass.new ≡ pass_view pass.old }
{
    match segment {
        FoundSegment::At(slot) => {
            let word = slot * SLOT_STRIDE as u32 + CELLS_WORD + (index % CELLS) as u32;
            let at = Place { word, index };
            queue.keep_place(pass, at);
            Found::At(at)
        }
        FoundSegment::Over(next) => Found::Over(next * CELLS),
        FoundSegment::Far => unreachable!(),
    }
}
