//! A cell that a step settled is counted, right after the step. Who counts the last cell of a
//! segment takes the segment out.

ghost use Rattle.std.specs.Prelude.{◌≡◌, ◌/◌, ◌<◌, ◌^◌, [], ◌∷◌};
ghost use Rattle.cqs_rule_laws.specs.Placed.{KnowsPlace, place_at};
ghost use Rattle.cqs_rule.specs.Counting.{Counted};
ghost use Rattle.cqs_segment.specs.Finds.{HasDone};
ghost use Rattle.cqs_segment.specs.Walks.{IsWalker};
ghost use Rattle.cqs_slots.specs.Slots.{IsHome};

use crate::queue::Queue;
use atomic_table::Seat;
use core::mem::replace_with;
use cqs_rule_laws::{CELLS_WORD, ClientWords, SLOT_STRIDE, View};
use cqs_segment::{CELLS, Retired};

impl<C: ClientWords> Queue<C> {
    /// Counts the cell of this number, which stood at this word, and is the one that the pass is to
    /// count.
    #[inline(always)]
    pub(crate) fn count_cell(
        &self,
        seat: &mut Seat<Option<C::Slot>, View<C::Entry, C::Slot>>,
        word: u32,
        number: u64,
    )
        requires table { seat.old.table_id ≡ self.now.table.shared.table_id }
        requires walker { IsWalker self.now.table.shared.table_id.words seat.old.me.0 }
        requires place { KnowsPlace seat.old.me.0 (place_at word number) }
        requires small { number < 2 ^ 40 }
        requires one { seat.old.me.0.facts.duties ≡ (number / 32) ∷ [] }
        requires none { seat.old.me.0.facts.to_retire ≡ [] }
        ensures table { seat.new.table_id ≡ seat.old.table_id }
        ensures counted { Counted seat.old.me.0 seat.new.me.0 }
        ensures bare { seat.new.me.1 ≡ seat.old.me.1 }
    {
        let slot = (word - CELLS_WORD) / SLOT_STRIDE as u32;
        let id = number / CELLS;
        let counted = cqs_segment::count_settled::<C>(&self.table.shared, seat, slot, id);
        if u64::from(counted) == CELLS {
            replace_with(
                seat,
                id,
                |seat, id|
                    requires table { seat.table_id ≡ self.now.table.shared.table_id }
                    requires walker { IsWalker self.now.table.shared.table_id.words seat.me.0 }
                    requires all { self.now.segment_slots ≡ seat.me.0.slots }
                    requires low { slot < seat.me.0.slots }
                    requires small { id < 2 ^ 36 }
                    requires home { IsHome seat.me.0.segments.homes id slot }
                { self.retire_apart(seat, slot, id) },
            );
        }
    }

    // Takes the segment out of which the last cell was counted. This stands apart from its caller,
    // and gets the seat by value, which has no bytes: with its address the pass would lie in memory
    // in the caller, also where a segment isn't full.
    #[cold]
    #[inline(never)]
    fn retire_apart(
        &self,
        seat: Seat<Option<C::Slot>, View<C::Entry, C::Slot>>,
        slot: u32,
        id: u64,
    ) -> (Seat<Option<C::Slot>, View<C::Entry, C::Slot>>, Retired)
        requires table { seat.table_id ≡ self.now.table.shared.table_id }
        requires walker { IsWalker self.now.table.shared.table_id.words seat.me.0 }
        requires all { self.now.segment_slots ≡ seat.me.0.slots }
        requires low { slot < seat.me.0.slots }
        requires small { id < 2 ^ 36 }
        requires home { IsHome seat.me.0.segments.homes id slot }
        ensures table { result.0.table_id ≡ seat.table_id }
        ensures done { HasDone id seat.me.0 result.0.me.0 }
        ensures bare { result.0.me.1 ≡ seat.me.1 }
    {
        let mut seat = seat;
        let retired = self.take_out_by(&mut seat, slot, id);
        (seat, retired)
    }
}
