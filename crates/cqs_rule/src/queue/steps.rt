//! Single steps on the words of the table: the counters and the cells. They are compiled into their
//! callers: a call would get the pass by its address, and then the pass would lie in memory.

ghost use Rattle.std.specs.Prelude.{◌≡◌, ◌+◌, ◌<◌, ◌≤◌, ◌^◌};
ghost use Rattle.cqs_core.specs.QueueSteps.{row_of};
ghost use Rattle.cqs_rule_laws.specs.Counts.{IsCount, PaysNoElement, IsDrawnAt};
ghost use Rattle.cqs_rule_laws.specs.Exchanges.{IsCrossing};
ghost use Rattle.cqs_rule_laws.specs.Kinds.{held_then, further_then, opened, closed};
ghost use Rattle.cqs_rule_laws.specs.Loads.{LoadSuits, MayLoad};
ghost use Rattle.cqs_rule_laws.specs.Manner.{Suits};
ghost use Rattle.cqs_rule.specs.Passes.{pass_view, client_of, IsOf};
ghost use Rattle.cqs_rule.specs.Steps.{HasLoaded, HasDrawn, HasCrossed};

use crate::plays::{Cross, Draw, Loading};
use crate::queue::{Pass, Queue};
use cqs_rule_laws::{
    Change, ClientWords, Kind, Learned, Load, Waits, add_at, exchange_at, load_at,
};
use cqs_words::CellWord;

// What a pass that held this much holds after the change.
fn held_after<C: ClientWords>(change: Change, held: u32) -> u32
    requires { held_then C.object.gains.held change held < 2 ^ 32 }
    ensures { result ≡ held_then C.object.gains.held change held }
{
    if change.gains {
        C::held_after_take(held)
    } else {
        held
    }
}

// How many further resumptions it owes then that owed this many.
fn further_after(change: Change, further: u32) -> u32
    ensures { result ≡ further_then change further }
{
    if change.pays {
        further.saturating_sub(1)
    } else {
        further
    }
}

// How many waits it has then that had this many.
fn waits_after(change: Change, waits: u32) -> u32
    requires few { waits < 2 ^ 31 }
    requires some { closed change.waits ≤ waits + opened change.waits }
    ensures { result + closed change.waits ≡ waits + opened change.waits }
{
    match change.waits {
        Waits::Stay => waits,
        Waits::Open => waits + 1,
        Waits::Close => waits - 1,
    }
}

impl<C: ClientWords> Queue<C> {
    /// Loads the suspend counter or a cell. A pass that finds the counter below the limit may draw,
    /// the owner of a wait learns in its cell what became of it, a resume meets the cell of its
    /// number, or sees what became of the value that it left there, and a suspend finds its cell
    /// broken. A cell that is settled by that is counted.
    #[inline(always)]
    pub fn load_table<L: Load>(&self, pass: &mut Pass<C>, word: u32) -> u64
        requires belongs { IsOf self.now pass.old }
        requires suits { LoadSuits (C.primitive (client_of self.now)).manner L.load }
        requires load { MayLoad L.load (pass_view pass.old) word }
        ensures belongs { IsOf self.now pass.new }
        ensures saw { HasLoaded L.load word result pass.old pass.new }
    {
        let found = load_at::<C, Loading<C, L>>(&self.table.shared, &mut pass.seat, word);
        match L::learns(found, pass.ticket) {
            Learned::Nothing => {}
            Learned::Granted => {
                pass.held = C::held_after_take(pass.held);
                pass.waits -= 1;
                self.count_cell(&mut pass.seat, word, CellWord::index_in(found));
            }
            Learned::Ended => {
                pass.owes = false;
                self.count_cell(&mut pass.seat, word, pass.ticket);
            }
            Learned::Settled => {
                pass.owes = false;
                self.count_cell(&mut pass.seat, word, CellWord::index_in(found));
            }
        }
        found
    }

    /// Draws the next number from a counter.
    #[inline(always)]
    pub fn add_table<K: Kind>(&self, pass: &mut Pass<C>, word: u32, by: i64) -> u64
        requires belongs { IsOf self.now pass.old }
        requires suits { Suits (C.primitive (client_of self.now)).manner K.step }
        requires count { IsCount K.step (pass_view pass.old).facts word by }
        requires free { PaysNoElement (row_of K.step) }
        ensures belongs { IsOf self.now pass.new }
        ensures saw { HasDrawn K.step result pass.old pass.new }
        ensures after { IsDrawnAt K.step (pass_view pass.old).facts result }
    {
        let found = add_at::<C, Draw<C, K>>(
            &self.table.shared,
            &mut pass.seat,
            word,
            by.unsigned_abs(),
        );
        let change = K::change();
        pass.owes = change.owes;
        pass.further = further_after(change, pass.further);
        pass.ticket = found;
        found
    }

    /// Makes an exchange on a cell: that of the number which the pass is at, or that of a wait of
    /// its own. A cell that is settled by that is counted.
    #[inline(always)]
    pub fn swap_table<K: Kind>(&self, pass: &mut Pass<C>, word: u32, saw: u64, new: u64) -> u64
        requires belongs { IsOf self.now pass.old }
        requires suits { Suits (C.primitive (client_of self.now)).manner K.step }
        requires cell { IsCrossing K.step (pass_view pass.old) word saw new }
        ensures belongs { IsOf self.now pass.new }
        ensures crossed { HasCrossed K.step saw result pass.old pass.new }
    {
        let found = exchange_at::<C, Cross<C, K>>(
            &self.table.shared,
            &mut pass.seat,
            word,
            saw,
            new,
        );
        if found == saw {
            let change = K::change();
            pass.held = held_after::<C>(change, pass.held);
            pass.owes = change.owes;
            pass.further = further_after(change, pass.further);
            pass.waits = waits_after(change, pass.waits);
            if change.settles {
                self.count_cell(&mut pass.seat, word, CellWord::index_in(saw));
            }
        }
        found
    }
}
