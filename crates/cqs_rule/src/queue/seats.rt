//! How a pass makes another, and how two become one.

ghost use Rattle.std.specs.Prelude.{◌≡◌, ◌⊎◌, true, ◌+◌, ◌++◌, ◌<◌, ◌≤◌, IsTrue, IsErr, None, IfOk, IfErr, OnErr, OnOk};
ghost use mathlib.Core.Logic.{◌↔◌};
ghost use Rattle.cqs_core.specs.declared.doings.Doing.TheVariants.{Idle};
ghost use Rattle.cqs_rule_laws.specs.Alone.{TellsAlone};
ghost use Rattle.cqs_rule_laws.specs.Crew.{IsBetween, IsSole, MayGive, OpensNone, MadeNone, MadeOne, Tried, CameWith, Met};
ghost use Rattle.cqs_rule_laws.specs.Layout.{words_for};
ghost use Rattle.cqs_rule_laws.specs.Lists.{IsPrefix};
ghost use Rattle.cqs_rule.specs.Passes.{pass_view, client_of, passes_of, IsOf};
ghost use Rattle.cqs_rule_laws.specs.Saw.{IsLive};
ghost use Rattle.cqs_rule.specs.Seats.{IsBusy, HasLookedOn, HasGiven, HasMet};
ghost use Rattle.cqs_rule_laws.specs.Views.{made_in, live_in};

use crate::plays::{Count, CountAfter, Cut, Gather, Gift, Hearing, Make, Meet, Noting};
use crate::queue::homes::Homes;
use crate::queue::spares::Spares;
use crate::queue::{Pass, Queue};
use atomic_table::Seat;
use cqs_rule_laws::{CREW_WORD, ClientWords, Crowd, MeetError, View, add_at, exchange_at, load_at};
use cqs_words::CrewWord;
use std::marker::Brand;

impl<C: ClientWords> Queue<C> {
    /// Whether no other pass is there. Then the pass has seen the whole history, and what happens
    /// from now on it does itself, until it makes another.
    pub fn sole(&self, pass: &mut Pass<C>) -> bool
        requires belongs { IsOf self.now pass.old }
        ensures belongs { IsOf self.now pass.new }
        ensures sole { IsTrue result ↔ (live_in (pass_view pass.new).crew ≡ 1) }
        ensures alone { result ≡ (pass_view pass.new).alone }
        ensures kept { (pass_view pass.old).alone ≡ true → (pass_view pass.new).alone ≡ true }
        ensures looked { HasLookedOn pass.old pass.new }
        ensures made_none { MadeNone (pass_view pass.old) (pass_view pass.new) }
        ensures others { IsTrue result → IsSole C.primitive (pass_view pass.new) }
    {
        let found = load_at::<C, Count<C>>(&self.table.shared, &mut pass.seat, CREW_WORD);
        CrewWord::live_in(found) == 1
    }

    /// The pass has then seen all that the other one has seen by now. So what two passes of one
    /// queue have seen are beginnings of one history, whether they ever meet or not. No word is
    /// changed: one is loaded.
    pub fn catch_up(&self, pass: &mut Pass<C>, other: &mut Pass<C>)
        requires belongs { IsOf self.now pass.old }
        requires other_belongs { IsOf self.now other.old }
        ensures belongs { IsOf self.now pass.new }
        ensures other_belongs { IsOf self.now other.new }
        ensures looked { HasLookedOn pass.old pass.new }
        ensures kept { (pass_view pass.old).alone ≡ true → (pass_view pass.new).alone ≡ true }
        ensures made_none { MadeNone (pass_view pass.old) (pass_view pass.new) }
        ensures other_stays { pass_view other.new ≡ pass_view other.old }
        ensures all { IsPrefix (pass_view other.old).seen (pass_view pass.new).seen }
        ensures one_history { IsPrefix (pass_view pass.old).seen (pass_view other.old).seen
            ⊎ IsPrefix (pass_view other.old).seen (pass_view pass.old).seen }
    {
        let note = self.table.shared.split_seat::<Noting>(&mut other.seat);
        self.table.shared.join_seat::<Hearing>(&mut pass.seat, note);
        load_at::<C, CountAfter<C>>(&self.table.shared, &mut pass.seat, CREW_WORD);
    }

    /// The exchange by which a pass is made that gets so much of what this one holds. It answers
    /// the word that it found.
    fn make<G: Gift>(
        &self,
        seat: &mut Seat<Option<C::Slot>, View<C::Entry, C::Slot>>,
        saw: u64,
        gives: u32,
    ) -> u64
        requires table { seat.old.table_id ≡ self.now.table.shared.table_id }
        requires live { seat.old.me.0.weight ≡ 1 }
        requires cells { words_for seat.old.me.0.slots ≡ seat.old.table_id.words }
        requires room { made_in saw < passes_of self.now }
        requires named { gives ≡ G.gives }
        requires shut { seat.old.me.0.facts.open_slot ≡ None }
        requires may { MayGive (C.primitive (client_of self.now)).opens gives
            seat.old.me.0.facts }
        ensures table { seat.new.table_id ≡ seat.old.table_id }
        ensures tried { Tried C.object gives saw seat.old.me.0 result seat.new.me.0 }
        ensures carried { seat.new.me.1 ≡ seat.old.me.1 }
        ensures alive { IsLive C.object seat.new.me.0 }
        ensures alone { TellsAlone C.primitive seat.new.me.0 }
    {
        exchange_at::<C, Make<C, G>>(
            &self.table.shared,
            seat,
            CREW_WORD,
            saw,
            CrewWord::with_one_more(saw),
        )
    }

    /// A new pass, which has seen what this one has seen, has done nothing, and gets so much of
    /// what this one holds. No further pass is made, and none where the answer is `Crowd`.
    pub fn split(&self, pass: &mut Pass<C>, gives: u32) -> Result<Pass<C>, Crowd>
        requires belongs { IsOf self.now pass.old }
        requires enough { gives ≤ (pass_view pass.old).facts.has.held }
        requires idle { 0 < gives → (pass_view pass.old).facts.doing ≡ Idle }
        requires shut { 0 < gives → OpensNone (C.primitive (client_of self.now)).opens
            (pass_view pass.old).facts.has }
        ensures belongs { IsOf self.now pass.new }
        ensures crowd { IsErr result ↔ (passes_of self.now ≤ made_in (pass_view pass.new).crew) }
        ensures refused { OnErr result (HasLookedOn pass.old pass.new) }
        ensures looked { gives ≡ 0 → HasLookedOn pass.old pass.new }
        ensures made_none { OnErr result (MadeNone (pass_view pass.old) (pass_view pass.new)) }
        ensures made_one { IfOk result
            (λ made. MadeOne (pass_view made).number (pass_view pass.old) (pass_view pass.new)) }
        ensures gave { OnOk result (HasGiven gives pass.old pass.new) }
        ensures kept { OnErr result ((pass_view pass.old).alone ≡ true
            → (pass_view pass.new).alone ≡ true) }
        ensures new_belongs { IfOk result (λ made. IsOf self.now made) }
        ensures came { IfOk result
            (λ made. CameWith C.object gives (pass_view pass.new) (pass_view made)) }
    {
        let mut saw = load_at::<C, Count<C>>(&self.table.shared, &mut pass.seat, CREW_WORD);
        while CrewWord::made_in(saw) < self.passes {
            let found = self.make::<Brand>(&mut pass.seat, saw, gives);
            if found == saw {
                let seat = self.table.shared.split_seat::<Cut>(&mut pass.seat);
                pass.held -= gives;
                return Ok(Pass {
                    seat,
                    number: CrewWord::made_in(found),
                    held: gives,
                    further: 0,
                    owes: false,
                    waits: 0,
                    ticket: 0,
                    spares: Spares::Nothing,
                    homes: Homes::none(),
                });
            }
            saw = found;
        }
        Err(Crowd)
    }

    /// The pass takes in the given one: it has seen what each of them had seen, and holds what both
    /// held. Slots that the given one had spare are given back.
    pub fn meet(&self, pass: &mut Pass<C>, given: Pass<C>) -> Result<(), (Pass<C>, MeetError)>
        requires belongs { IsOf self.now pass.old }
        requires given_belongs { IsOf self.now given }
        requires idle { (pass_view pass.old).facts.doing ≡ Idle }
        requires between { IsBetween (pass_view given).facts }
        ensures belongs { IsOf self.now pass.new }
        ensures busy { IsErr result ↔ IsBusy (pass_view given).facts }
        ensures back { IfErr result (λ refused. refused.0 ≡ given) }
        ensures unchanged { OnErr result (pass.new ≡ pass.old) }
        ensures met { OnOk result (HasMet pass.old given pass.new) }
        ensures laid { OnOk result ((pass_view pass.new).laid
            ≡ (pass_view pass.old).laid ++ (pass_view given).laid) }
    {
        if given.owes() || given.waits > 0 {
            return Err((given, MeetError::Busy));
        }
        let mut given = given;
        self.give_all_back(&mut given);
        let Pass { seat, held, .. } = given;
        self.table.shared.join_seat::<Gather>(&mut pass.seat, seat);
        // The sum wraps, so one fewer is there.
        add_at::<C, Meet<C>>(&self.table.shared, &mut pass.seat, CREW_WORD, u64::MAX);
        pass.held += held;
        Ok(())
    }
}
