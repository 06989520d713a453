//! What a call claims before its first change.

ghost use Rattle.std.specs.Prelude.{◌≡◌, ◌≤◌, OnErr, OnOk};
ghost use Rattle.cqs_rule_laws.specs.Ample.{IsAmple};
ghost use Rattle.cqs_segment.specs.Walks.{Left};
ghost use Rattle.cqs_rule.specs.Claims.{Claimed, Crowds, IsClaimer};
ghost use Rattle.cqs_rule.specs.Passes.{ample_of, pass_view, IsOf};

use crate::queue::spares::Spares;
use crate::queue::{Pass, Queue};
use atomic_table::Seat;
use core::mem::replace_with;
use cqs_rule_laws::{ClientWords, Crowded, View};

impl<C: ClientWords> Queue<C> {
    /// Whether the table has slots for all segments that can be wanted, and for the spare ones of
    /// all passes: from `limit / 32 + 2 * passes + 3` slots on, where the queue opens without
    /// values. Then all segments are made as it opens, and no call needs a spare slot.
    #[inline]
    pub fn is_ample(&self) -> bool
        ensures { result ≡ ample_of self.now }
    {
        self.ample
    }

    /// Claims free slots until the pass has so many spare. In an ample table it makes no step.
    /// Crowded comes only where each slot was seen not free at a step of this call; what was
    /// claimed before stays with the pass.
    #[inline(always)]
    pub fn claim_spares(&self, pass: &mut Pass<C>, most: u32) -> Result<(), Crowded>
        requires belongs { IsOf self.now pass.old }
        requires few { most ≤ 2 }
        ensures belongs { IsOf self.now pass.new }
        ensures claimed { OnOk result
            (Claimed most (pass_view pass.old) (pass_view pass.new)) }
        ensures crowded { OnErr result (Crowds most (pass_view pass.old) (pass_view pass.new)) }
    {
        if self.ample {
            return Ok(());
        }
        if pass.spares() >= most {
            return Ok(());
        }
        let spares = pass.spares;
        let (spares, claimed) = replace_with(
            &mut pass.seat,
            most,
            |seat, most|
                requires table { seat.table_id ≡ self.now.table.shared.table_id }
                requires claimer { IsClaimer self.now spares seat.me.0 }
                requires few { most ≤ 2 }
                requires scarce { IsAmple seat.me.0 → ⊥ }
                ensures table { result.0.table_id ≡ seat.table_id }
                ensures claimer { IsClaimer self.entry.now result.1.0 result.0.me.0 }
                ensures left { Left result.0.me.0.facts.spare_slots seat.me.0.facts.duties
                    seat.me.0 result.0.me.0 }
                ensures claimed { OnOk result.1.1 (Claimed most seat.me.0 result.0.me.0) }
                ensures crowded { OnErr result.1.1 (Crowds most seat.me.0 result.0.me.0) }
                ensures bare { result.0.me.1 ≡ seat.me.1 }
            { self.claim_apart(seat, spares, most) },
        );
        pass.spares = spares;
        claimed
    }

    // The same where a claim is needed. It stands apart from its caller, and gets the seat, which
    // has no bytes, and the spare slots by value: with its address the pass would lie in memory in
    // the caller too. It answers the slots that are spare then.
    #[cold]
    #[inline(never)]
    pub(crate) fn claim_apart(
        &self,
        seat: Seat<Option<C::Slot>, View<C::Entry, C::Slot>>,
        spares: Spares,
        most: u32,
    ) -> (
        Seat<Option<C::Slot>, View<C::Entry, C::Slot>>,
        (Spares, Result<(), Crowded>),
    )
        requires table { seat.table_id ≡ self.now.table.shared.table_id }
        requires claimer { IsClaimer self.now spares seat.me.0 }
        requires few { most ≤ 2 }
        requires scarce { IsAmple seat.me.0 → ⊥ }
        ensures table { result.0.table_id ≡ seat.table_id }
        ensures claimer { IsClaimer self.now result.1.0 result.0.me.0 }
        ensures left { Left result.0.me.0.facts.spare_slots seat.me.0.facts.duties
            seat.me.0 result.0.me.0 }
        ensures claimed { OnOk result.1.1 (Claimed most seat.me.0 result.0.me.0) }
        ensures crowded { OnErr result.1.1 (Crowds most seat.me.0 result.0.me.0) }
        ensures bare { result.0.me.1 ≡ seat.me.1 }
    {
        let mut seat = seat;
        let mut spares = spares;
        while spares.count() < most {
            match cqs_segment::claim::<C>(&self.table.shared, &mut seat, self.segment_slots) {
                Some(slot) => spares = spares.with(slot),
                None => return (seat, (spares, Err(Crowded))),
            }
        }
        (seat, (spares, Ok(())))
    }
}
