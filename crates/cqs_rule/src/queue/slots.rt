//! Values that move through slots of the table.

ghost use Rattle.std.specs.Prelude.{◌≡◌, ◌⊎◌, ◌<◌, true, [], ◌∷◌, Some, None};
ghost use Rattle.cqs_rule.specs.Passes.{pass_view, client_of, slots_of, IsOf};
ghost use Rattle.cqs_rule_laws.specs.Slots.{laid_in, handed_in};
ghost use Rattle.cqs_rule_laws.specs.SlotSteps.{TookOut, PutBack, Swapped, HandedIn, LayIn, LayLast, KnowsLast, IsOut, IsUntouched};
ghost use Rattle.cqs_rule.specs.Steps.{IsOpener};

use crate::plays::{Filling, PuttingBack, TakingOut};
use crate::queue::{Pass, Queue};
use atomic_table::Seat;
use cqs_rule_laws::{CREW_WORD, ClientWords, View, load_at};
use std::marker::Brand;

// The number of a slot: a call of a step on it picks it.
pub(crate) trait Numbered {
    ghost use Rattle.std.specs.Prelude.{ℕ};

    ghost slot: { ℕ };
}

impl Numbered for Brand {
    ghost slot = { 0 };
}

impl<C: ClientWords> Queue<C> {
    // Takes the slot from its home, by a load of the crew's word.
    fn take_out<K: Numbered>(
        &self,
        seat: &mut Seat<Option<C::Slot>, View<C::Entry, C::Slot>>,
        slot: u32,
    )
        requires number { slot ≡ K.slot }
        requires table { seat.old.table_id ≡ self.now.table.shared.table_id }
        requires words { 0 < seat.old.table_id.words }
        requires one { seat.old.me.0.weight ≡ 1 }
        requires shut { seat.old.me.0.facts.open_slot ≡ None }
        requires bare { seat.old.me.1 ≡ [] }
        requires low { slot < slots_of self.now }
        requires may { (C.primitive (client_of self.now)).opens seat.old.me.0.facts.has slot
            ⊎ (seat.old.me.0.alone ≡ true) }
        ensures table { seat.new.table_id ≡ seat.old.table_id }
        ensures took { TookOut slot seat.old.me.0 seat.new.me.0 seat.new.me.1 }
        ensures last { KnowsLast C.object slot seat.new.me.0 }
    {
        load_at::<C, TakingOut<C, K>>(&self.table.shared, seat, CREW_WORD);
    }

    // Puts it back, with what lies there now.
    fn put_back<K: Numbered>(
        &self,
        seat: &mut Seat<Option<C::Slot>, View<C::Entry, C::Slot>>,
        slot: u32,
    )
        requires number { slot ≡ K.slot }
        requires table { seat.old.table_id ≡ self.now.table.shared.table_id }
        requires words { 0 < seat.old.table_id.words }
        requires one { seat.old.me.0.weight ≡ 1 }
        requires out { seat.old.me.0.facts.open_slot ≡ Some slot }
        requires item { IsOut slot seat.old.me.1 }
        requires low { slot < slots_of self.now }
        requires may { (C.primitive (client_of self.now)).opens seat.old.me.0.facts.has slot }
        ensures table { seat.new.table_id ≡ seat.old.table_id }
        ensures bare { seat.new.me.1 ≡ [] }
        ensures put { (x : Rattle.std.specs.Prelude.Option C.Slot) → seat.old.me.1 ≡ (slot, x) ∷ []
            → PutBack ((slot, x) ∷ seat.old.me.0.laid) seat.old.me.0 seat.new.me.0 }
    {
        load_at::<C, PuttingBack<C, K>>(&self.table.shared, seat, CREW_WORD);
    }

    // Puts it back with its first value.
    fn put_first<K: Numbered>(
        &self,
        seat: &mut Seat<Option<C::Slot>, View<C::Entry, C::Slot>>,
        slot: u32,
    )
        requires number { slot ≡ K.slot }
        requires table { seat.old.table_id ≡ self.now.table.shared.table_id }
        requires words { 0 < seat.old.table_id.words }
        requires one { seat.old.me.0.weight ≡ 1 }
        requires out { seat.old.me.0.facts.open_slot ≡ Some slot }
        requires item { (y : C.Slot) × (seat.old.me.1 ≡ (slot, Some y) ∷ []) }
        requires low { slot < slots_of self.now }
        requires unlaid { laid_in seat.old.me.0.laid slot ≡ None }
        requires alone { seat.old.me.0.alone ≡ true }
        requires empty { handed_in seat.old.me.0.handed slot ≡ None }
        ensures table { seat.new.table_id ≡ seat.old.table_id }
        ensures bare { seat.new.me.1 ≡ [] }
        ensures put { PutBack seat.old.me.0.laid seat.old.me.0 seat.new.me.0 }
        ensures handed { (y : C.Slot) → seat.old.me.1 ≡ (slot, Some y) ∷ []
            → HandedIn slot y seat.old.me.0 seat.new.me.0 }
    {
        load_at::<C, Filling<C, K>>(&self.table.shared, seat, CREW_WORD);
    }

    /// Puts a value into a slot, or nothing, and hands out what lay there. The pass must hold the
    /// slot. It is no step of a client: two loads of the crew's word take the slot from its home
    /// and put it back.
    pub fn swap_slot(
        &self,
        pass: &mut Pass<C>,
        slot: u32,
        value: Option<C::Slot>,
    ) -> Option<C::Slot>
        requires belongs { IsOf self.now pass.old }
        requires slot { slot < slots_of self.now }
        requires holds { IsOpener self.now pass.old slot }
        ensures belongs { IsOf self.now pass.new }
        ensures lay { LayIn slot result (pass_view pass.old) (pass_view pass.new) }
        ensures last { LayLast C.object slot result (pass_view pass.old) (pass_view pass.new) }
        ensures swapped { Swapped ((slot, value) ∷ (pass_view pass.old).laid)
            (pass_view pass.old) (pass_view pass.new) }
    {
        self.take_out::<Brand>(&mut pass.seat, slot);
        let found = self
            .table
            .shared
            .exchange(&mut pass.seat, slot as usize, value);
        self.put_back::<Brand>(&mut pass.seat, slot);
        found
    }

    /// Puts the first value into a slot that is empty since the queue was made. No other call was
    /// made on the queue yet.
    pub fn fill_slot(&self, pass: &mut Pass<C>, slot: u32, value: C::Slot)
        requires belongs { IsOf self.now pass.old }
        requires slot { slot < slots_of self.now }
        requires first { IsUntouched slot (pass_view pass.old) }
        ensures belongs { IsOf self.now pass.new }
        ensures handed { HandedIn slot value (pass_view pass.old) (pass_view pass.new) }
        ensures swapped { Swapped (pass_view pass.old).laid (pass_view pass.old)
            (pass_view pass.new) }
    {
        self.take_out::<Brand>(&mut pass.seat, slot);
        let _ = self
            .table
            .shared
            .exchange(&mut pass.seat, slot as usize, Some(value));
        self.put_first::<Brand>(&mut pass.seat, slot);
    }
}
