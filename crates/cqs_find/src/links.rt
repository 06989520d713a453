//! What the link of a segment's slot names, and how it is raised.

ghost use Rattle.std.specs.Prelude.{◌<◌};
ghost use Rattle.cqs_words.specs.Segment.{LinkFits, packed_link};
ghost use Rattle.cqs_slots.specs.Slots.{IsHome};
ghost use Rattle.cqs_rule_laws.specs.SegmentSteps.{LinkRaised};
ghost use Rattle.cqs_segment.specs.Links.{HaveLeftBetween, IsPlaced, Links};
ghost use Rattle.cqs_rule.specs.Passes.{pass_view, IsOf};
ghost use Rattle.cqs_rule.specs.Segments.{slot_count, HasStayed};

use cqs_rule::{ClientWords, Pass, Queue};
use cqs_words::LinkWord;

/// The segment that the link of this one's slot names: one load. None comes exactly where the
/// loaded id isn't above that of this segment. After Some all segments between the two were taken
/// out, unless this one was.
pub fn next_of<C: ClientWords>(
    queue: &Queue<C>,
    pass: &mut Pass<C>,
    slot: u32,
    id: u64,
) -> Option<LinkWord>
    requires belongs { IsOf queue.now pass.old }
    requires low { slot < slot_count pass.old }
    requires home { IsHome (pass_view pass.old).segments.homes id slot }
    ensures belongs { IsOf queue.now pass.new }
    ensures next { Links slot id result (pass_view pass.old) (pass_view pass.new) }
    ensures stayed { HasStayed pass.old pass.new }
{
    queue.next_of(pass, slot, id)
}

/// Raises the link of a segment's slot to a later segment, where all between them were taken out:
/// one fetch-max. The link names that one then, or one that is later still. The slot may be
/// another's by now, and then the link names nothing.
pub fn pass_by<C: ClientWords>(queue: &Queue<C>, pass: &mut Pass<C>, from: LinkWord, to: LinkWord)
    requires belongs { IsOf queue.now pass.old }
    requires order { from.id < to.id }
    requires fits { LinkFits to }
    requires from { IsPlaced from (pass_view pass.old) }
    requires to { IsPlaced to (pass_view pass.old) }
    requires between { HaveLeftBetween from.id to.id (pass_view pass.old) }
    ensures belongs { IsOf queue.now pass.new }
    ensures raised { LinkRaised from.slot (packed_link to) (pass_view pass.old)
        (pass_view pass.new) }
{
    queue.pass_by(pass, from, to);
}
