//! The calls on segments, with a pass. Their bodies, by a seat, are those of `cqs_segment`.

ghost use Rattle.std.specs.Prelude.{◌≡◌, ◌+◌, ◌*◌, ◌<◌, ◌≤◌, ◌^◌, [], length, IfSome, OnErr, OnOk};
ghost use mathlib.Core.Logic.{◌↔◌};
ghost use Rattle.cqs_words.specs.Segment.{LinkFits, TailFits, packed_link, packed_tail};
ghost use Rattle.cqs_slots.specs.Slots.{IsHome};
ghost use Rattle.cqs_rule_laws.specs.SegmentSteps.{LinkRaised, OwnStand};
ghost use Rattle.cqs_slots.specs.Told.{TailFound};
ghost use Rattle.cqs_segment.specs.Finds.{Finds, HasDone, IsNear, Retires, SeesAhead, TakesOut};
ghost use Rattle.cqs_segment.specs.Links.{HaveLeftBetween, IsPlaced, Links};
ghost use Rattle.cqs_segment.specs.Slots.{Confirms, SawAllTaken};
ghost use Rattle.cqs_segment.specs.Walks.{IsWalker, LookedAt};
ghost use Rattle.cqs_rule.specs.Claims.{IsClaimer};
ghost use Rattle.cqs_rule.specs.Passes.{pass_view, IsOf};
ghost use Rattle.cqs_rule.specs.Segments.{as_link, slot_count, spares_of, ExtendsLast, IsLinkedTo, HasClaimed, HasExtended, HasGivenBack, HasLeft, HasPassed, HasStayed};

use crate::queue::spares::Spares;
use crate::queue::{Pass, Queue};
use atomic_table::Seat;
use core::mem::replace_with;
use cqs_rule_laws::{ClientWords, Crowded, View};
use cqs_segment::{Extended, Found, Retired};
use cqs_words::{LinkWord, TailWord};

impl<C: ClientWords> Queue<C> {
    /// Claims a free slot. Crowded comes only where each slot was seen not free at a step of this
    /// call; the pass has what it had then.
    pub fn claim(&self, pass: &mut Pass<C>) -> Result<(), Crowded>
        requires belongs { IsOf self.now pass.old }
        requires few { length (spares_of pass.old) < 2 }
        ensures belongs { IsOf self.now pass.new }
        ensures claimed { OnOk result (HasClaimed pass.old pass.new) }
        ensures crowded { OnErr result (SawAllTaken (slot_count pass.old) (pass_view pass.old)
            (pass_view pass.new)) }
    {
        match cqs_segment::claim::<C>(&self.table.shared, &mut pass.seat, self.segment_slots) {
            Some(slot) => {
                pass.spares = pass.spares.with(slot);
                Ok(())
            }
            None => Err(Crowded),
        }
    }

    /// Gives the slot back that the pass claimed last, of those that it has spare. It is free then.
    pub fn give_back(&self, pass: &mut Pass<C>)
        requires belongs { IsOf self.now pass.old }
        requires some { 0 < length (spares_of pass.old) }
        ensures belongs { IsOf self.now pass.new }
        ensures given { HasGivenBack pass.old pass.new }
    {
        match pass.spares.split_last() {
            Some((slot, others)) => {
                cqs_segment::give_back::<C>(&self.table.shared, &mut pass.seat, slot);
                pass.spares = others;
            }
            None => unreachable!(),
        }
    }

    /// Whether the segment stands in this slot: whether the slot's head was loaded as live with
    /// this id.
    pub fn confirm(&self, pass: &mut Pass<C>, slot: u32, id: u64) -> bool
        requires belongs { IsOf self.now pass.old }
        requires low { slot < slot_count pass.old }
        requires small { id < 2 ^ 36 }
        ensures belongs { IsOf self.now pass.new }
        ensures confirms { Confirms slot id result (pass_view pass.old) (pass_view pass.new) }
    {
        cqs_segment::confirm::<C>(&self.table.shared, &mut pass.seat, slot, id)
    }

    /// The last segment, with its slot: one load. The segment of a number that the pass drew is at
    /// most one after it.
    pub fn last_segment(&self, pass: &mut Pass<C>) -> TailWord
        requires belongs { IsOf self.now pass.old }
        ensures belongs { IsOf self.now pass.new }
        ensures found { TailFound (slot_count pass.new) (packed_tail result)
            (pass_view pass.new).segments }
        ensures fits { TailFits result }
        ensures near { IsNear result (pass_view pass.old) }
        ensures stayed { HasStayed pass.old pass.new }
    {
        cqs_segment::last::<C>(&self.table.shared, &mut pass.seat)
    }

    /// Where the segment stands: in a slot, or nowhere any more, or nowhere yet. Where it was taken
    /// out, all before the segment that is answered were; and the head of that one was found live,
    /// or the pass knew of no later one before.
    #[inline(always)]
    pub fn find_segment(&self, pass: &mut Pass<C>, id: u64) -> Found
        requires belongs { IsOf self.now pass.old }
        requires small { id < 2 ^ 36 }
        ensures belongs { IsOf self.now pass.new }
        ensures finds { Finds id result (pass_view pass.new) }
        ensures ahead { SeesAhead result (pass_view pass.old) (pass_view pass.new) }
        ensures own { OwnStand (pass_view pass.new) (pass_view pass.new) }
        ensures looked { LookedAt (slot_count pass.old) (pass_view pass.old) (pass_view pass.new) }
    {
        let near = pass.kept_segment();
        replace_with(
            &mut pass.seat,
            id,
            |seat, id|
                requires table { seat.table_id ≡ self.now.table.shared.table_id }
                requires walker { IsWalker self.now.table.shared.table_id.words seat.me.0 }
                requires all { self.now.segment_slots ≡ seat.me.0.slots }
                requires near { IfSome near (λ at. IsPlaced at seat.me.0) }
                requires small { id < 2 ^ 36 }
                ensures table { result.0.table_id ≡ seat.table_id }
                ensures finds { Finds id result.1 result.0.me.0 }
                ensures ahead { SeesAhead result.1 seat.me.0 result.0.me.0 }
                ensures own { OwnStand result.0.me.0 result.0.me.0 }
                ensures looked { LookedAt self.entry.now.segment_slots seat.me.0 result.0.me.0 }
                ensures bare { result.0.me.1 ≡ seat.me.1 }
            { self.find_apart(seat, near, id) },
        )
    }

    // The search stands apart from its caller, and gets the seat by value, which has no bytes: with
    // its address the pass would lie in memory in the caller, also where nothing is to be searched.
    #[cold]
    #[inline(never)]
    fn find_apart(
        &self,
        seat: Seat<Option<C::Slot>, View<C::Entry, C::Slot>>,
        near: Option<LinkWord>,
        id: u64,
    ) -> (Seat<Option<C::Slot>, View<C::Entry, C::Slot>>, Found)
        requires table { seat.table_id ≡ self.now.table.shared.table_id }
        requires walker { IsWalker self.now.table.shared.table_id.words seat.me.0 }
        requires all { self.now.segment_slots ≡ seat.me.0.slots }
        requires near { IfSome near (λ at. IsPlaced at seat.me.0) }
        requires small { id < 2 ^ 36 }
        ensures table { result.0.table_id ≡ seat.table_id }
        ensures finds { Finds id result.1 result.0.me.0 }
        ensures ahead { SeesAhead result.1 seat.me.0 result.0.me.0 }
        ensures own { OwnStand result.0.me.0 result.0.me.0 }
        ensures looked { LookedAt self.now.segment_slots seat.me.0 result.0.me.0 }
        ensures bare { result.0.me.1 ≡ seat.me.1 }
    {
        let mut seat = seat;
        let slots = self.segment_slots;
        let found = cqs_segment::find::<C>(&self.table.shared, &mut seat, slots, near, id);
        (seat, found)
    }

    /// Makes the segment after this one in the slot that the pass claimed last, of those that it
    /// has spare. A link leads there from this one then; and this one isn't the last, so it is
    /// taken out where all its cells are counted. Where the tail is found to be another, that one
    /// is answered and the slot stays spare.
    pub fn extend(&self, pass: &mut Pass<C>, after: TailWord) -> Extended
        requires belongs { IsOf self.now pass.old }
        requires some { 0 < length (spares_of pass.old) }
        requires small { 32 * (after.id + 2) ≤ 2 ^ 40 }
        ensures belongs { IsOf self.now pass.new }
        ensures extended { HasExtended after result pass.old pass.new }
        ensures linked { IsLinkedTo after result (pass_view pass.new) }
    {
        let (spares, extended) = self.extend_by(&mut pass.seat, pass.spares, after);
        pass.spares = spares;
        extended
    }

    // The same by a seat, with the slots that it has spare. It answers those that are spare then.
    pub(crate) fn extend_by(
        &self,
        seat: &mut Seat<Option<C::Slot>, View<C::Entry, C::Slot>>,
        spares: Spares,
        after: TailWord,
    ) -> (Spares, Extended)
        requires table { seat.old.table_id ≡ self.now.table.shared.table_id }
        requires claimer { IsClaimer self.now spares seat.old.me.0 }
        requires some { 0 < length seat.old.me.0.facts.spare_slots }
        requires small { 32 * (after.id + 2) ≤ 2 ^ 40 }
        ensures table { seat.new.table_id ≡ seat.old.table_id }
        ensures claimer { IsClaimer self.now result.0 seat.new.me.0 }
        ensures extended { ExtendsLast after result.1 seat.old.me.0 seat.new.me.0 }
        ensures linked { IsLinkedTo after result.1 seat.new.me.0 }
        ensures bare { seat.new.me.1 ≡ seat.old.me.1 }
    {
        match spares.split_last() {
            Some((slot, others)) => {
                let extended = cqs_segment::extend::<C>(&self.table.shared, seat, after, slot);
                if let Extended::Made(made) = extended {
                    self.link_by(seat, after, made);
                    self.take_out_by(seat, after.slot, after.id);
                    return (others, extended);
                }
                (spares, extended)
            }
            None => unreachable!(),
        }
    }

    // A link leads from the last segment to the one that was made after it.
    fn link_by(
        &self,
        seat: &mut Seat<Option<C::Slot>, View<C::Entry, C::Slot>>,
        after: TailWord,
        made: TailWord,
    )
        requires table { seat.old.table_id ≡ self.now.table.shared.table_id }
        requires walker { IsWalker self.now.table.shared.table_id.words seat.old.me.0 }
        requires next { made.id ≡ after.id + 1 }
        requires fits { TailFits made }
        requires from { IsPlaced (as_link after) seat.old.me.0 }
        requires to { IsPlaced (as_link made) seat.old.me.0 }
        ensures table { seat.new.table_id ≡ seat.old.table_id }
        ensures raised { LinkRaised after.slot (packed_tail made) seat.old.me.0 seat.new.me.0 }
        ensures bare { seat.new.me.1 ≡ seat.old.me.1 }
    {
        let from = LinkWord {
            id: after.id,
            slot: after.slot,
        };
        let to = LinkWord {
            id: made.id,
            slot: made.slot,
        };
        cqs_segment::pass_by::<C>(&self.table.shared, seat, from, to);
    }

    // Takes a segment out where its cells are counted and it isn't the last one. Where it left by
    // this call, it is passed by.
    pub(crate) fn take_out_by(
        &self,
        seat: &mut Seat<Option<C::Slot>, View<C::Entry, C::Slot>>,
        slot: u32,
        id: u64,
    ) -> Retired
        requires table { seat.old.table_id ≡ self.now.table.shared.table_id }
        requires walker { IsWalker self.now.table.shared.table_id.words seat.old.me.0 }
        requires all { self.now.segment_slots ≡ seat.old.me.0.slots }
        requires low { slot < seat.old.me.0.slots }
        requires small { id < 2 ^ 36 }
        requires home { IsHome seat.old.me.0.segments.homes id slot }
        ensures table { seat.new.table_id ≡ seat.old.table_id }
        ensures takes { TakesOut slot id result seat.old.me.0 seat.new.me.0 }
        ensures done { HasDone id seat.old.me.0 seat.new.me.0 }
        ensures bare { seat.new.me.1 ≡ seat.old.me.1 }
    {
        cqs_segment::take_out::<C>(&self.table.shared, seat, self.segment_slots, slot, id)
    }

    /// The segment that the link of this one's slot names: one load. None comes exactly where the
    /// loaded id isn't above that of this segment. After Some all segments between the two were
    /// taken out, unless this one was.
    pub fn next_of(&self, pass: &mut Pass<C>, slot: u32, id: u64) -> Option<LinkWord>
        requires belongs { IsOf self.now pass.old }
        requires low { slot < slot_count pass.old }
        requires home { IsHome (pass_view pass.old).segments.homes id slot }
        ensures belongs { IsOf self.now pass.new }
        ensures next { Links slot id result (pass_view pass.old) (pass_view pass.new) }
        ensures stayed { HasStayed pass.old pass.new }
    {
        cqs_segment::next_of::<C>(&self.table.shared, &mut pass.seat, slot, id)
    }

    /// Raises the link of a segment's slot to a later segment, where all between them were taken
    /// out. It names that one then, or one that is later still. The slot may be another's by now,
    /// and then the link names nothing.
    pub fn pass_by(&self, pass: &mut Pass<C>, from: LinkWord, to: LinkWord)
        requires belongs { IsOf self.now pass.old }
        requires order { from.id < to.id }
        requires fits { LinkFits to }
        requires from { IsPlaced from (pass_view pass.old) }
        requires to { IsPlaced to (pass_view pass.old) }
        requires between { HaveLeftBetween from.id to.id (pass_view pass.old) }
        ensures belongs { IsOf self.now pass.new }
        ensures raised { LinkRaised from.slot (packed_link to) (pass_view pass.old)
            (pass_view pass.new) }
    {
        cqs_segment::pass_by::<C>(&self.table.shared, &mut pass.seat, from, to);
    }

    /// Takes a segment out where its 32 cells are counted and it isn't the last one. The slot is,
    /// or was, its home. It isn't passed by.
    pub fn retire(&self, pass: &mut Pass<C>, slot: u32, id: u64) -> Retired
        requires belongs { IsOf self.now pass.old }
        requires low { slot < slot_count pass.old }
        requires small { id < 2 ^ 36 }
        requires home { IsHome (pass_view pass.old).segments.homes id slot }
        ensures belongs { IsOf self.now pass.new }
        ensures retires { Retires slot id result (pass_view pass.old) (pass_view pass.new) }
        ensures passed { HasPassed pass.old pass.new }
    {
        cqs_segment::retire::<C>(&self.table.shared, &mut pass.seat, slot, id)
    }

    // Gives all back that the pass has spare.
    pub(crate) fn give_all_back(&self, pass: &mut Pass<C>)
        requires belongs { IsOf self.now pass.old }
        ensures belongs { IsOf self.now pass.new }
        ensures given { HasLeft [] (pass_view pass.old).facts.duties pass.old pass.new }
    {
        while pass.spares() > 0 {
            self.give_back(pass);
        }
    }
}
