//! The segment of a drawn number is made, where nobody has made it yet.

ghost use Rattle.std.specs.Prelude.{◌≡◌, ◌/◌, ◌<◌, ◌≤◌, ◌^◌, length, OnErr, OnOk};
ghost use Rattle.cqs_rule_laws.specs.Ample.{IsAmple};
ghost use Rattle.cqs_rule_laws.specs.SegmentSteps.{HasDrawn};
ghost use Rattle.cqs_segment.specs.Walks.{Left};
ghost use Rattle.cqs_rule.specs.Claims.{Crowds, IsClaimer};
ghost use Rattle.cqs_rule.specs.Passes.{pass_view, IsOf};
ghost use Rattle.cqs_rule.specs.Segments.{spares_of, HasLeft};

use crate::queue::spares::Spares;
use crate::queue::{Pass, Queue};
use atomic_table::Seat;
use core::mem::replace_with;
use cqs_rule_laws::{ClientWords, Crowded, View};
use cqs_segment::CELLS;

impl<C: ClientWords> Queue<C> {
    /// Makes the segment of this number in a slot that the pass has spare, or else in one that it
    /// claims now, unless another pass makes it first. It is at most one after the last. Crowded
    /// comes only where each slot was seen not free at a step of this call.
    #[inline(always)]
    pub fn make_segment(&self, pass: &mut Pass<C>, index: u64) -> Result<(), Crowded>
        requires belongs { IsOf self.now pass.old }
        requires drawn { HasDrawn (pass_view pass.old) index }
        requires small { index < (pass_view pass.old).cells }
        requires far { length (pass_view pass.old).segments.homes ≤ index / 32 }
        ensures belongs { IsOf self.now pass.new }
        ensures made { OnOk result (index / 32 < length (pass_view pass.new).segments.homes) }
        ensures crowded { OnErr result (Crowds 1 (pass_view pass.old) (pass_view pass.new)) }
        ensures left { HasLeft (spares_of pass.new) (pass_view pass.old).facts.duties
            pass.old pass.new }
    {
        let spares = pass.spares;
        let (spares, made) = replace_with(
            &mut pass.seat,
            index,
            |seat, index|
                requires table { seat.table_id ≡ self.now.table.shared.table_id }
                requires claimer { IsClaimer self.now spares seat.me.0 }
                requires drawn { HasDrawn seat.me.0 index }
                requires small { index < 2 ^ 37 }
                requires scarce { IsAmple seat.me.0 → ⊥ }
                ensures table { result.0.table_id ≡ seat.table_id }
                ensures claimer { IsClaimer self.entry.now result.1.0 result.0.me.0 }
                ensures left { Left result.0.me.0.facts.spare_slots seat.me.0.facts.duties
                    seat.me.0 result.0.me.0 }
                ensures made { OnOk result.1.1 (index / 32 < length result.0.me.0.segments.homes) }
                ensures crowded { OnErr result.1.1 (Crowds 1 seat.me.0 result.0.me.0) }
                ensures bare { result.0.me.1 ≡ seat.me.1 }
            { self.make_apart(seat, spares, index) },
        );
        pass.spares = spares;
        made
    }

    // The segment is made apart from the caller, by the seat, which has no bytes, and the spare
    // slots: with its address the pass would lie in memory in the caller, also where no segment is
    // to be made. It answers the slots that are spare then.
    #[cold]
    #[inline(never)]
    fn make_apart(
        &self,
        seat: Seat<Option<C::Slot>, View<C::Entry, C::Slot>>,
        spares: Spares,
        index: u64,
    ) -> (
        Seat<Option<C::Slot>, View<C::Entry, C::Slot>>,
        (Spares, Result<(), Crowded>),
    )
        requires table { seat.table_id ≡ self.now.table.shared.table_id }
        requires claimer { IsClaimer self.now spares seat.me.0 }
        requires drawn { HasDrawn seat.me.0 index }
        requires small { index < 2 ^ 37 }
        requires scarce { IsAmple seat.me.0 → ⊥ }
        ensures table { result.0.table_id ≡ seat.table_id }
        ensures claimer { IsClaimer self.now result.1.0 result.0.me.0 }
        ensures left { Left result.0.me.0.facts.spare_slots seat.me.0.facts.duties
            seat.me.0 result.0.me.0 }
        ensures made { OnOk result.1.1 (index / 32 < length result.0.me.0.segments.homes) }
        ensures crowded { OnErr result.1.1 (Crowds 1 seat.me.0 result.0.me.0) }
        ensures bare { result.0.me.1 ≡ seat.me.1 }
    {
        let (mut seat, (spares, claimed)) = self.claim_apart(seat, spares, 1);
        match claimed {
            Ok(()) => {}
            Err(crowded) => return (seat, (spares, Err(crowded))),
        }
        let last = cqs_segment::last::<C>(&self.table.shared, &mut seat);
        if last.id >= index / CELLS {
            return (seat, (spares, Ok(())));
        }
        let (spares, _) = self.extend_by(&mut seat, spares, last);
        (seat, (spares, Ok(())))
    }
}
