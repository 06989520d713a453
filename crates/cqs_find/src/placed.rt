//! Where to try a cell: where the pass keeps that its segment stands, or else where it is found.

ghost use Rattle.std.specs.Prelude.{◌≡◌, ◌⊎◌, IfOk, OnErr};
ghost use Rattle.cqs_find.specs.Finds.{HasSearched, IsCrowded, Locates};
ghost use Rattle.cqs_rule_laws.specs.Lists.{Has};
ghost use Rattle.cqs_rule.specs.Passes.{pass_view, IsOf};
ghost use Rattle.cqs_rule_laws.specs.SegmentSteps.{HasDrawn};

use crate::found::{Found, find};
use cqs_rule::{ClientWords, Crowded, Pass, Queue};

/// Where to try the cell of a number. Where the pass keeps that the segment stands, this is no
/// step; the segment may have been taken out since, and then the word of a later number is found
/// there. Crowded comes only where the segment isn't made and no slot is left for it.
#[inline(always)]
pub fn locate<C: ClientWords>(
    queue: &Queue<C>,
    pass: &mut Pass<C>,
    index: u64,
) -> Result<Found, Crowded>
    requires belongs { IsOf queue.now pass.old }
    requires number { HasDrawn (pass_view pass.old) index
        ⊎ Has index (pass_view pass.old).facts.waits }
    ensures belongs { IsOf queue.now pass.new }
    ensures locates { IfOk result (λ found. Locates index (pass_view pass.new) found) }
    ensures searched { HasSearched index pass.old pass.new }
    ensures crowded { OnErr result (IsCrowded index (pass_view pass.old) (pass_view pass.new)) }
{
    if let Some(at) = pass.kept_place(index) {
        return Ok(Found::At(at));
    }
    find(queue, pass, index)
}
