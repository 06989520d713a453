//! A spare slot becomes the home of the segment after the last.

ghost use Rattle.std.specs.Prelude.{◌≡◌, ◌+◌, ◌*◌, ◌<◌, ◌≤◌, ◌^◌, ◌++◌, ◌∷◌, []};
ghost use Rattle.cqs_words.specs.Segment.{TailFits};
ghost use Rattle.cqs_slots.specs.Slots.{IsHome};
ghost use Rattle.cqs_rule_laws.specs.SegmentSteps.{reset_slot};
ghost use Rattle.cqs_segment.specs.Extends.{ExtendsTo};
ghost use Rattle.cqs_segment.specs.Walks.{but_last, EndsReset, EndsWith, IsWalker, Left, Looked};

use crate::heads::claimed_id;
use crate::steps::{begin, light, load_head, reset_cell, reset_count, swap_tail};
use atomic_table::{Seat, Shared};
use cqs_rule_laws::{ClientWords, Key, Rule, View};
use cqs_words::TailWord;

/// What an extension came to.
#[derive(Clone, Copy)]
pub enum Extended {
    /// The spare slot became the home of this segment.
    Made(TailWord),
    /// The last segment was found to be this one already.
    Seen(TailWord),
}

// Sets the words of the spare slot for the segment after this one: each cell to its number, empty,
// and the number of counted cells to 0.
fn reset<C: ClientWords>(
    words: &Shared<Option<C::Slot>, View<C::Entry, C::Slot>, Key<C>, Rule<C>>,
    seat: &mut Seat<Option<C::Slot>, View<C::Entry, C::Slot>>,
    slot: u32,
    after: u64,
)
    requires table { seat.old.table_id ≡ words.now.table_id }
    requires walker { IsWalker words.now.table_id.words seat.old.me.0 }
    requires low { slot < seat.old.me.0.slots }
    requires small { 32 * (after + 2) ≤ 2 ^ 40 }
    requires last { EndsReset seat.old.me.0.facts.spare_slots slot after 1 }
    ensures table { seat.new.table_id ≡ seat.old.table_id }
    ensures reset { Left
        (but_last seat.old.me.0.facts.spare_slots ++ reset_slot slot after 34 ∷ [])
        seat.old.me.0.facts.duties seat.old.me.0 seat.new.me.0 }
    ensures bare { seat.new.me.1 ≡ seat.old.me.1 }
{
    for cell in 0..32 {
        reset_cell::<C>(words, seat, slot, after, cell);
    }
    reset_count::<C>(words, seat, slot, after);
}

// Makes the head of a segment live where it is still claimed.
fn make_live<C: ClientWords>(
    words: &Shared<Option<C::Slot>, View<C::Entry, C::Slot>, Key<C>, Rule<C>>,
    seat: &mut Seat<Option<C::Slot>, View<C::Entry, C::Slot>>,
    made: TailWord,
)
    requires table { seat.old.table_id ≡ words.now.table_id }
    requires walker { IsWalker words.now.table_id.words seat.old.me.0 }
    requires low { made.slot < seat.old.me.0.slots }
    requires fits { TailFits made }
    requires home { IsHome seat.old.me.0.segments.homes made.id made.slot }
    ensures table { seat.new.table_id ≡ seat.old.table_id }
    ensures lit { made.id < seat.new.me.0.segments.lit }
    ensures looked { Looked seat.old.me.0 seat.new.me.0 }
    ensures bare { seat.new.me.1 ≡ seat.old.me.1 }
{
    let Some(id) = claimed_id(load_head::<C>(words, seat, made.slot)) else {
        return;
    };
    if id < made.id {
        light::<C>(words, seat, made, id);
    }
}

/// Makes the segment after this one, which the pass knows, in the pass's last spare slot. The pass
/// is to retire this one then. It loads the tail before it resets a word of the slot: so the slot
/// is never reset for a segment that it was the home of. Where the tail is found to be another,
/// before or by the exchange, that one is answered and the slot stays spare.
pub fn extend<C: ClientWords>(
    words: &Shared<Option<C::Slot>, View<C::Entry, C::Slot>, Key<C>, Rule<C>>,
    seat: &mut Seat<Option<C::Slot>, View<C::Entry, C::Slot>>,
    after: TailWord,
    slot: u32,
) -> Extended
    requires table { seat.old.table_id ≡ words.now.table_id }
    requires walker { IsWalker words.now.table_id.words seat.old.me.0 }
    requires low { slot < seat.old.me.0.slots }
    requires small { 32 * (after.id + 2) ≤ 2 ^ 40 }
    requires last { EndsWith seat.old.me.0.facts.spare_slots slot }
    ensures table { seat.new.table_id ≡ seat.old.table_id }
    ensures extends { ExtendsTo after slot result seat.old.me.0 seat.new.me.0 }
    ensures bare { seat.new.me.1 ≡ seat.old.me.1 }
{
    let tail = begin::<C>(words, seat, slot);
    if tail != after {
        return Extended::Seen(tail);
    }
    reset::<C>(words, seat, slot, after.id);
    make_live::<C>(words, seat, after);
    let id = after.id + 1;
    let made = TailWord { id, slot };
    let found = swap_tail::<C>(words, seat, after, made);
    if found != after {
        return Extended::Seen(found);
    }
    make_live::<C>(words, seat, made);
    Extended::Made(made)
}
