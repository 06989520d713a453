//! Where a segment stands.

ghost use Rattle.std.specs.Prelude.{◌≡◌, ◌⊎◌, ◌+◌, ◌-◌, ◌<◌, ◌≤◌, ◌^◌, [], length, IfErr, IfOk, IfSome};
ghost use Rattle.cqs_words.specs.Segment.{TailFits, packed_tail};
ghost use Rattle.cqs_slots.specs.Told.{TailFound};
ghost use Rattle.cqs_rule_laws.specs.SegmentSteps.{LeftBy, OwnStand};
ghost use Rattle.cqs_segment.specs.Finds.{Finds, HaveLeftFrom, IsNear, IsNearer, SawLive, SeesAhead};
ghost use Rattle.cqs_segment.specs.Links.{IsPlaced};
ghost use Rattle.cqs_segment.specs.Walks.{IsWalker, LookedAt};

use crate::links::next_of;
use crate::steps::{load_head, load_tail};
use atomic_table::{Seat, Shared};
use cqs_rule_laws::{ClientWords, Key, Rule, View};
use cqs_words::{HeadTag, HeadWord, LinkWord, TailWord};

/// Where a segment stands.
#[derive(Clone, Copy)]
pub enum Found {
    /// In this slot, as it was loaded.
    At(u32),
    /// Nowhere any more: it was taken out, and so were all that come after it before this one.
    Over(u64),
    /// Nowhere yet: it wasn't made when the tail was loaded.
    Far,
}

/// The last segment, with its slot: one load. The segment of a number that the pass drew is this
/// one, or one before, or the next.
pub fn last<C: ClientWords>(
    words: &Shared<Option<C::Slot>, View<C::Entry, C::Slot>, Key<C>, Rule<C>>,
    seat: &mut Seat<Option<C::Slot>, View<C::Entry, C::Slot>>,
) -> TailWord
    requires table { seat.old.table_id ≡ words.now.table_id }
    requires walker { IsWalker words.now.table_id.words seat.old.me.0 }
    ensures table { seat.new.table_id ≡ seat.old.table_id }
    ensures found { TailFound seat.new.me.0.slots (packed_tail result)
        seat.new.me.0.segments }
    ensures fits { TailFits result }
    ensures near { IsNear result seat.old.me.0 }
    ensures looked { LeftBy [] seat.old.me.0.facts.spare_slots seat.old.me.0.facts.duties
        seat.old.me.0 seat.new.me.0 }
    ensures bare { seat.new.me.1 ≡ seat.old.me.1 }
{
    load_tail::<C>(words, seat)
}

// The nearest segment after this one that is known to stand, if this head was found besides: the
// one that it names, where that comes before `next`.
#[inline]
fn nearer(head: u64, id: u64, next: u64) -> u64
    requires order { id < next }
    requires small { next < 2 ^ 36 }
    ensures nearer { IsNearer id next head result }
{
    match HeadWord::unpack(head) {
        Some(
            HeadWord {
                id: live,
                tag: HeadTag::Live,
            },
        ) if id < live && live < next => live,
        _ => next,
    }
}

// Looks through the heads of these slots for a segment that isn't the last. Where none names it, it
// answers the nearest one after it that one of them names, or that was known before.
fn scan<C: ClientWords>(
    words: &Shared<Option<C::Slot>, View<C::Entry, C::Slot>, Key<C>, Rule<C>>,
    seat: &mut Seat<Option<C::Slot>, View<C::Entry, C::Slot>>,
    first: u32,
    end: u32,
    id: u64,
    known: u64,
) -> Result<u32, u64>
    requires table { seat.old.table_id ≡ words.now.table_id }
    requires walker { IsWalker words.now.table_id.words seat.old.me.0 }
    requires order { first ≤ end }
    requires inside { end ≤ seat.old.me.0.slots }
    requires small { known < 2 ^ 36 }
    requires after { id < known }
    requires made { known < length seat.old.me.0.segments.homes }
    requires own { OwnStand seat.old.me.0 seat.old.me.0 }
    ensures table { seat.new.table_id ≡ seat.old.table_id }
    ensures found { IfOk result (λ slot. Finds id (Found.At slot) seat.new.me.0) }
    ensures none { IfErr result (λ next. HaveLeftFrom first end id next seat.old.me.0
        seat.new.me.0) }
    ensures nearest { IfErr result (λ next. (id < next) × (next ≤ known)
        × ((next ≡ known) ⊎ SawLive next seat.old.me.0 seat.new.me.0)) }
    ensures own { OwnStand seat.new.me.0 seat.new.me.0 }
    ensures looked { LookedAt (end - first) seat.old.me.0 seat.new.me.0 }
    ensures bare { seat.new.me.1 ≡ seat.old.me.1 }
{
    let tag = HeadTag::Live;
    let live = HeadWord { id, tag }.pack();
    let mut next = known;
    for slot in first..end {
        let head = load_head::<C>(words, seat, slot);
        if head == live {
            return Ok(slot);
        }
        next = nearer(head, id, next);
    }
    Err(next)
}

// From a segment that comes before this one, the segment that its link names, if it names one.
fn hop<C: ClientWords>(
    words: &Shared<Option<C::Slot>, View<C::Entry, C::Slot>, Key<C>, Rule<C>>,
    seat: &mut Seat<Option<C::Slot>, View<C::Entry, C::Slot>>,
    at: LinkWord,
    id: u64,
) -> LinkWord
    requires table { seat.old.table_id ≡ words.now.table_id }
    requires walker { IsWalker words.now.table_id.words seat.old.me.0 }
    requires placed { IsPlaced at seat.old.me.0 }
    requires own { OwnStand seat.old.me.0 seat.old.me.0 }
    ensures table { seat.new.table_id ≡ seat.old.table_id }
    ensures placed { IsPlaced result seat.new.me.0 }
    ensures own { OwnStand seat.new.me.0 seat.new.me.0 }
    ensures looked { LeftBy [] seat.old.me.0.facts.spare_slots seat.old.me.0.facts.duties
        seat.old.me.0 seat.new.me.0 }
    ensures bare { seat.new.me.1 ≡ seat.old.me.1 }
{
    if at.id >= id {
        return at;
    }
    match next_of::<C>(words, seat, at.slot, at.id) {
        Some(next) => next,
        None => at,
    }
}

// Looks through all heads, from this slot on.
fn search<C: ClientWords>(
    words: &Shared<Option<C::Slot>, View<C::Entry, C::Slot>, Key<C>, Rule<C>>,
    seat: &mut Seat<Option<C::Slot>, View<C::Entry, C::Slot>>,
    slots: u32,
    first: u32,
    id: u64,
    known: u64,
) -> Result<u32, u64>
    requires table { seat.old.table_id ≡ words.now.table_id }
    requires walker { IsWalker words.now.table_id.words seat.old.me.0 }
    requires order { first ≤ slots }
    requires all { slots ≡ seat.old.me.0.slots }
    requires small { known < 2 ^ 36 }
    requires after { id < known }
    requires made { known < length seat.old.me.0.segments.homes }
    requires own { OwnStand seat.old.me.0 seat.old.me.0 }
    ensures table { seat.new.table_id ≡ seat.old.table_id }
    ensures found { IfOk result (λ slot. Finds id (Found.At slot) seat.new.me.0) }
    ensures none { IfErr result (λ next. HaveLeftFrom 0 slots id next seat.old.me.0
        seat.new.me.0) }
    ensures nearest { IfErr result (λ next. (id < next) × (next ≤ known)
        × ((next ≡ known) ⊎ SawLive next seat.old.me.0 seat.new.me.0)) }
    ensures own { OwnStand seat.new.me.0 seat.new.me.0 }
    ensures looked { LookedAt slots seat.old.me.0 seat.new.me.0 }
    ensures bare { seat.new.me.1 ≡ seat.old.me.1 }
{
    match scan::<C>(words, seat, first, slots, id, known) {
        Ok(slot) => Ok(slot),
        Err(near) => scan::<C>(words, seat, 0, first, id, near),
    }
}

// The slot at which to begin to look for a segment: where two links at most lead to it from one
// that the pass knows, and else where it would stand if no slot had been used again.
fn guess<C: ClientWords>(
    words: &Shared<Option<C::Slot>, View<C::Entry, C::Slot>, Key<C>, Rule<C>>,
    seat: &mut Seat<Option<C::Slot>, View<C::Entry, C::Slot>>,
    slots: u32,
    near: Option<LinkWord>,
    id: u64,
) -> u32
    requires table { seat.old.table_id ≡ words.now.table_id }
    requires walker { IsWalker words.now.table_id.words seat.old.me.0 }
    requires all { slots ≡ seat.old.me.0.slots }
    requires some { 0 < slots }
    requires near { IfSome near (λ at. IsPlaced at seat.old.me.0) }
    requires own { OwnStand seat.old.me.0 seat.old.me.0 }
    ensures table { seat.new.table_id ≡ seat.old.table_id }
    ensures low { result < slots }
    ensures own { OwnStand seat.new.me.0 seat.new.me.0 }
    ensures looked { LeftBy [] seat.old.me.0.facts.spare_slots seat.old.me.0.facts.duties
        seat.old.me.0 seat.new.me.0 }
    ensures bare { seat.new.me.1 ≡ seat.old.me.1 }
{
    let unmoved = (id % u64::from(slots)) as u32;
    match near {
        Some(near) => {
            let first = hop::<C>(words, seat, near, id);
            let then = hop::<C>(words, seat, first, id);
            if then.id == id { then.slot } else { unmoved }
        }
        None => unmoved,
    }
}

/// Finds the segment of this number. It loads the tail first, and the heads only where the segment
/// comes before the last one: so a segment that no head names had left, and with it all before the
/// nearest one that a head names, or else before the last. It begins to look where links lead from
/// a segment that the pass knows, or else where the segment would stand if no slot had been used
/// again.
pub fn find<C: ClientWords>(
    words: &Shared<Option<C::Slot>, View<C::Entry, C::Slot>, Key<C>, Rule<C>>,
    seat: &mut Seat<Option<C::Slot>, View<C::Entry, C::Slot>>,
    slots: u32,
    near: Option<LinkWord>,
    id: u64,
) -> Found
    requires table { seat.old.table_id ≡ words.now.table_id }
    requires walker { IsWalker words.now.table_id.words seat.old.me.0 }
    requires all { slots ≡ seat.old.me.0.slots }
    requires near { IfSome near (λ at. IsPlaced at seat.old.me.0) }
    requires small { id < 2 ^ 36 }
    ensures table { seat.new.table_id ≡ seat.old.table_id }
    ensures finds { Finds id result seat.new.me.0 }
    ensures ahead { SeesAhead result seat.old.me.0 seat.new.me.0 }
    ensures own { OwnStand seat.new.me.0 seat.new.me.0 }
    ensures looked { LookedAt slots seat.old.me.0 seat.new.me.0 }
    ensures bare { seat.new.me.1 ≡ seat.old.me.1 }
{
    let last = load_tail::<C>(words, seat);
    if id == last.id {
        return Found::At(last.slot);
    }
    if id > last.id {
        return Found::Far;
    }
    let first = guess::<C>(words, seat, slots, near, id);
    match search::<C>(words, seat, slots, first, id, last.id) {
        Ok(slot) => Found::At(slot),
        Err(next) => Found::Over(next),
    }
}
