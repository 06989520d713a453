//! The links of slots: what they tell of the segments that come next, and how they are raised.

ghost use Rattle.std.specs.Prelude.{◌≡◌, ◌<◌, []};
ghost use Rattle.cqs_words.specs.Segment.{LinkFits, packed_link};
ghost use Rattle.cqs_slots.specs.Slots.{IsHome};
ghost use Rattle.cqs_rule_laws.specs.SegmentSteps.{LeftBy, LinkRaised, OwnStand};
ghost use Rattle.cqs_segment.specs.Links.{HaveLeftBetween, IsPlaced, Links};
ghost use Rattle.cqs_segment.specs.Walks.{IsWalker};

use crate::steps::{load_link, raise_link};
use atomic_table::{Seat, Shared};
use cqs_rule_laws::{ClientWords, Key, Rule, View};
use cqs_words::LinkWord;

/// The segment that the link of this one's slot names: one load. None comes exactly where the
/// loaded id isn't above that of this segment. After Some all segments between the two were taken
/// out, unless this one was.
pub fn next_of<C: ClientWords>(
    words: &Shared<Option<C::Slot>, View<C::Entry, C::Slot>, Key<C>, Rule<C>>,
    seat: &mut Seat<Option<C::Slot>, View<C::Entry, C::Slot>>,
    slot: u32,
    id: u64,
) -> Option<LinkWord>
    requires table { seat.old.table_id ≡ words.now.table_id }
    requires walker { IsWalker words.now.table_id.words seat.old.me.0 }
    requires low { slot < seat.old.me.0.slots }
    requires home { IsHome seat.old.me.0.segments.homes id slot }
    ensures table { seat.new.table_id ≡ seat.old.table_id }
    ensures next { Links slot id result seat.old.me.0 seat.new.me.0 }
    ensures own { OwnStand seat.new.me.0 seat.new.me.0 }
    ensures looked { LeftBy [] seat.old.me.0.facts.spare_slots seat.old.me.0.facts.duties
        seat.old.me.0 seat.new.me.0 }
    ensures bare { seat.new.me.1 ≡ seat.old.me.1 }
{
    let link = load_link::<C>(words, seat, slot);
    if id < link.id { Some(link) } else { None }
}

/// Raises the link of a segment's slot to a later segment, where all between them were taken out.
/// It names that one then, or one that is later still. The slot may be another's by now, and then
/// the link names nothing.
pub fn pass_by<C: ClientWords>(
    words: &Shared<Option<C::Slot>, View<C::Entry, C::Slot>, Key<C>, Rule<C>>,
    seat: &mut Seat<Option<C::Slot>, View<C::Entry, C::Slot>>,
    from: LinkWord,
    to: LinkWord,
)
    requires table { seat.old.table_id ≡ words.now.table_id }
    requires walker { IsWalker words.now.table_id.words seat.old.me.0 }
    requires order { from.id < to.id }
    requires fits { LinkFits to }
    requires from { IsPlaced from seat.old.me.0 }
    requires to { IsPlaced to seat.old.me.0 }
    requires between { HaveLeftBetween from.id to.id seat.old.me.0 }
    ensures table { seat.new.table_id ≡ seat.old.table_id }
    ensures raised { LinkRaised from.slot (packed_link to) seat.old.me.0 seat.new.me.0 }
    ensures bare { seat.new.me.1 ≡ seat.old.me.1 }
{
    raise_link::<C>(words, seat, from, to);
}
