//! Slots are claimed, given back, and asked for what they hold.

ghost use Rattle.std.specs.Prelude.{◌≡◌, ◌<◌, ◌^◌, ◌++◌, ◌∷◌, [], IsTrue, false, IfSome, IfNone};
ghost use Rattle.cqs_rule_laws.specs.SegmentSteps.{claimed_slot, LeftBy};
ghost use Rattle.cqs_segment.specs.Slots.{Confirms, SawAllTaken, SawTaken};
ghost use Rattle.cqs_segment.specs.Walks.{but_last, EndsWith, IsWalker, Left};

use crate::heads::free_id;
use crate::steps::{claim_slot, give_slot, load_head};
use atomic_table::{Seat, Shared};
use cqs_rule_laws::{ClientWords, Key, Rule, View};
use cqs_words::{HeadTag, HeadWord};

// Claims the slot where it is free. Each failed try has found it free under a later id.
fn try_claim<C: ClientWords>(
    words: &Shared<Option<C::Slot>, View<C::Entry, C::Slot>, Key<C>, Rule<C>>,
    seat: &mut Seat<Option<C::Slot>, View<C::Entry, C::Slot>>,
    slot: u32,
) -> bool
    requires table { seat.old.table_id ≡ words.now.table_id }
    requires walker { IsWalker words.now.table_id.words seat.old.me.0 }
    requires low { slot < seat.old.me.0.slots }
    ensures table { seat.new.table_id ≡ seat.old.table_id }
    ensures won { IsTrue result → Left
        (seat.old.me.0.facts.spare_slots ++ claimed_slot slot ∷ []) seat.old.me.0.facts.duties
        seat.old.me.0 seat.new.me.0 }
    ensures lost { result ≡ false → SawTaken slot seat.old.me.0 seat.new.me.0 }
    ensures bare { seat.new.me.1 ≡ seat.old.me.1 }
{
    let Some(mut id) = free_id(load_head::<C>(words, seat, slot)) else {
        return false;
    };
    loop {
        let found = claim_slot::<C>(words, seat, slot, id);
        match free_id(found) {
            Some(next) if next == id => return true,
            Some(next) => id = next,
            None => return false,
        }
    }
}

/// Claims a free slot, the first that it comes to, and answers its number: it is the pass's last
/// spare one. None comes only where each of the slots was seen not free at a step of this call.
pub fn claim<C: ClientWords>(
    words: &Shared<Option<C::Slot>, View<C::Entry, C::Slot>, Key<C>, Rule<C>>,
    seat: &mut Seat<Option<C::Slot>, View<C::Entry, C::Slot>>,
    slots: u32,
) -> Option<u32>
    requires table { seat.old.table_id ≡ words.now.table_id }
    requires walker { IsWalker words.now.table_id.words seat.old.me.0 }
    requires all { slots ≡ seat.old.me.0.slots }
    ensures table { seat.new.table_id ≡ seat.old.table_id }
    ensures claimed { IfSome result (λ x. (x < slots) × Left
        (seat.old.me.0.facts.spare_slots ++ claimed_slot x ∷ []) seat.old.me.0.facts.duties
        seat.old.me.0 seat.new.me.0) }
    ensures crowded { IfNone result
        (SawAllTaken slots seat.old.me.0 seat.new.me.0) }
    ensures bare { seat.new.me.1 ≡ seat.old.me.1 }
{
    for slot in 0..slots {
        if try_claim::<C>(words, seat, slot) {
            return Some(slot);
        }
    }
    None
}

/// Gives the pass's last spare slot back. The slot is free then.
pub fn give_back<C: ClientWords>(
    words: &Shared<Option<C::Slot>, View<C::Entry, C::Slot>, Key<C>, Rule<C>>,
    seat: &mut Seat<Option<C::Slot>, View<C::Entry, C::Slot>>,
    slot: u32,
)
    requires table { seat.old.table_id ≡ words.now.table_id }
    requires walker { IsWalker words.now.table_id.words seat.old.me.0 }
    requires low { slot < seat.old.me.0.slots }
    requires last { EndsWith seat.old.me.0.facts.spare_slots slot }
    ensures table { seat.new.table_id ≡ seat.old.table_id }
    ensures given { LeftBy [] (but_last seat.old.me.0.facts.spare_slots)
        seat.old.me.0.facts.duties seat.old.me.0 seat.new.me.0 }
    ensures bare { seat.new.me.1 ≡ seat.old.me.1 }
{
    give_slot::<C>(words, seat, slot);
}

/// Whether the segment stands in this slot: whether the slot's head was loaded as live with this
/// id.
pub fn confirm<C: ClientWords>(
    words: &Shared<Option<C::Slot>, View<C::Entry, C::Slot>, Key<C>, Rule<C>>,
    seat: &mut Seat<Option<C::Slot>, View<C::Entry, C::Slot>>,
    slot: u32,
    id: u64,
) -> bool
    requires table { seat.old.table_id ≡ words.now.table_id }
    requires walker { IsWalker words.now.table_id.words seat.old.me.0 }
    requires low { slot < seat.old.me.0.slots }
    requires small { id < 2 ^ 36 }
    ensures table { seat.new.table_id ≡ seat.old.table_id }
    ensures confirms { Confirms slot id result seat.old.me.0 seat.new.me.0 }
    ensures bare { seat.new.me.1 ≡ seat.old.me.1 }
{
    let tag = HeadTag::Live;
    load_head::<C>(words, seat, slot) == HeadWord { id, tag }.pack()
}
