//! A segment that was taken out is passed by.

ghost use Rattle.std.specs.Prelude.{◌≡◌, ◌+◌, ◌<◌, ◌≤◌, ◌^◌, [], length, true};
ghost use mathlib.Core.Logic.{◌↔◌};
ghost use Rattle.cqs_words.specs.Segment.{LinkFits};
ghost use Rattle.cqs_slots.specs.Slots.{IsHome};
ghost use Rattle.cqs_rule_laws.specs.Lists.{Has};
ghost use Rattle.cqs_rule_laws.specs.SegmentSteps.{LeftBy};
ghost use Rattle.cqs_segment.specs.Links.{AreSides, HaveLeftWithin, IsAbove, IsClosed, IsLower, IsPlaced, IsUpper};
ghost use Rattle.cqs_segment.specs.Walks.{IsWalker};

use crate::heads::live_id;
use crate::links::pass_by;
use crate::steps::{load_tail, see_head};
use atomic_table::{Seat, Shared};
use cqs_rule_laws::{ClientWords, Key, Rule, View};
use cqs_words::LinkWord;

// Whether the segment comes after this one, if there is one.
fn is_above(id: u64, below: Option<LinkWord>) -> bool
    ensures { (result ≡ true) ↔ IsAbove id below }
{
    match below {
        Some(below) => below.id < id,
        None => true,
    }
}

// The nearest segment before this one that is known to stand, if this head of the slot was found
// besides.
fn lower(below: Option<LinkWord>, id: u64, slot: u32, head: u64) -> Option<LinkWord>
    requires small { id < 2 ^ 36 }
    ensures lower { IsLower id slot head below result }
{
    match live_id(head) {
        Some(live) if live < id && is_above(live, below) => Some(LinkWord { id: live, slot }),
        _ => below,
    }
}

// And the nearest after it.
fn upper(above: LinkWord, id: u64, slot: u32, head: u64) -> LinkWord
    requires small { above.id < 2 ^ 36 }
    ensures upper { IsUpper id slot head above result }
{
    match live_id(head) {
        Some(live) if id < live && live < above.id => LinkWord { id: live, slot },
        _ => above,
    }
}

// Looks through all heads for the nearest segments on both sides of one that was taken out, of
// which the one after it is the last where none before that is found.
fn sides<C: ClientWords>(
    words: &Shared<Option<C::Slot>, View<C::Entry, C::Slot>, Key<C>, Rule<C>>,
    seat: &mut Seat<Option<C::Slot>, View<C::Entry, C::Slot>>,
    slots: u32,
    id: u64,
    last: LinkWord,
) -> (Option<LinkWord>, LinkWord)
    requires table { seat.old.table_id ≡ words.now.table_id }
    requires walker { IsWalker words.now.table_id.words seat.old.me.0 }
    requires all { slots ≡ seat.old.me.0.slots }
    requires small { last.id < 2 ^ 36 }
    requires before { id < last.id }
    requires last { IsPlaced last seat.old.me.0 }
    ensures table { seat.new.table_id ≡ seat.old.table_id }
    ensures sides { AreSides id last.id result.0 result.1 seat.new.me.0 }
    ensures left { HaveLeftWithin slots id result.0 result.1 seat.old.me.0 seat.new.me.0 }
    ensures looked { LeftBy [] seat.old.me.0.facts.spare_slots seat.old.me.0.facts.duties
        seat.old.me.0 seat.new.me.0 }
    ensures bare { seat.new.me.1 ≡ seat.old.me.1 }
{
    let mut below = None;
    let mut above = last;
    for slot in 0..slots {
        let head = see_head::<C>(words, seat, slot);
        below = lower(below, id, slot, head);
        above = upper(above, id, slot, head);
    }
    (below, above)
}

/// Passes by a segment that was taken out: raises the link of the nearest segment before it that
/// stands, if there is one, to the nearest after it. It loads the tail before it looks through the
/// heads: so a segment before the last that no head names had left.
pub fn close_gap<C: ClientWords>(
    words: &Shared<Option<C::Slot>, View<C::Entry, C::Slot>, Key<C>, Rule<C>>,
    seat: &mut Seat<Option<C::Slot>, View<C::Entry, C::Slot>>,
    slots: u32,
    id: u64,
)
    requires table { seat.old.table_id ≡ words.now.table_id }
    requires walker { IsWalker words.now.table_id.words seat.old.me.0 }
    requires all { slots ≡ seat.old.me.0.slots }
    requires made { id < length seat.old.me.0.segments.homes }
    requires out { Has id seat.old.me.0.segments.outs }
    ensures table { seat.new.table_id ≡ seat.old.table_id }
    ensures closed { IsClosed id seat.new.me.0 }
    ensures looked { LeftBy [] seat.old.me.0.facts.spare_slots seat.old.me.0.facts.duties
        seat.old.me.0 seat.new.me.0 }
    ensures bare { seat.new.me.1 ≡ seat.old.me.1 }
{
    let tail = load_tail::<C>(words, seat);
    let last = LinkWord {
        id: tail.id,
        slot: tail.slot,
    };
    let (below, above) = sides::<C>(words, seat, slots, id, last);
    if let Some(below) = below {
        pass_by::<C>(words, seat, below, above);
    }
}
