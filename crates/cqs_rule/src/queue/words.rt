//! Single steps on the words of the client.

ghost use Rattle.std.specs.Prelude.{◌≡◌, ◌<◌, bit_or, pos};
ghost use Rattle.cqs_rule_laws.specs.Layout.{client_place};
ghost use Rattle.cqs_rule.specs.Passes.{IsOf};
ghost use Rattle.cqs_rule_laws.specs.Events.{word_plus, word_after_exchange, in_any_case, where_found};
ghost use Rattle.cqs_rule.specs.Steps.{MayMove, MayKeep, MayGive, HasMoved, HasGiven};

use crate::plays::{GivingAway, Show, ShowExchange};
use crate::queue::{Numbered, Pass, Queue};
use cqs_rule_laws::{CLIENT_WORD, ClientWords, Shown, add_at, exchange_at, load_at, or_at};
use std::marker::Brand;

// Where a word of the client stands.
fn place(word: u32) -> u32
    requires { word < 4 }
    ensures { result ≡ client_place word }
{
    16 * word + CLIENT_WORD
}

impl<C: ClientWords> Queue<C> {
    /// Loads a word of the client.
    pub fn load_word<M: Shown<C>>(&self, pass: &mut Pass<C>, word: u32) -> u64
        requires belongs { IsOf self.now pass.old }
        requires word { word < 4 }
        requires law { MayMove self.now pass.old M.event in_any_case word (λ n. n) }
        requires slots { MayKeep self.now pass.old M.event in_any_case }
        ensures belongs { IsOf self.now pass.new }
        ensures saw { HasMoved M.event in_any_case word result pass.old pass.new }
    {
        let found = load_at::<C, Show<C, M>>(&self.table.shared, &mut pass.seat, place(word));
        pass.held = M::held_after(pass.held, found, true);
        pass.owes = M::owes_after(pass.owes, found, true);
        pass.further = M::further_after(pass.further, found, true);
        found
    }

    /// Adds to a word of the client, which wraps.
    pub fn add_word<M: Shown<C>>(&self, pass: &mut Pass<C>, word: u32, by: i64) -> u64
        requires belongs { IsOf self.now pass.old }
        requires word { word < 4 }
        requires law { MayMove self.now pass.old M.event in_any_case word (word_plus by) }
        requires slots { MayKeep self.now pass.old M.event in_any_case }
        ensures belongs { IsOf self.now pass.new }
        ensures saw { HasMoved M.event in_any_case word result pass.old pass.new }
    {
        let found = add_at::<C, Show<C, M>>(
            &self.table.shared,
            &mut pass.seat,
            place(word),
            by.cast_unsigned(),
        );
        pass.held = M::held_after(pass.held, found, true);
        pass.owes = M::owes_after(pass.owes, found, true);
        pass.further = M::further_after(pass.further, found, true);
        found
    }

    /// Adds to a word of the client, by an event that gives a slot away: the value that lies there
    /// is handed in.
    pub fn give_word<M: Shown<C>>(&self, pass: &mut Pass<C>, word: u32, by: u32, slot: u32) -> u64
        requires belongs { IsOf self.now pass.old }
        requires word { word < 4 }
        requires law { MayMove self.now pass.old M.event in_any_case word (word_plus (pos by)) }
        requires slots { MayGive self.now pass.old M.event in_any_case slot }
        ensures belongs { IsOf self.now pass.new }
        ensures saw { HasMoved M.event in_any_case word result pass.old pass.new }
        ensures given { HasGiven slot pass.old pass.new }
    {
        self.give_at::<M, Brand>(pass, word, by, slot)
    }

    fn give_at<M: Shown<C>, K: Numbered>(
        &self,
        pass: &mut Pass<C>,
        word: u32,
        by: u32,
        slot: u32,
    ) -> u64
        requires number { slot ≡ K.slot }
        requires belongs { IsOf self.now pass.old }
        requires word { word < 4 }
        requires law { MayMove self.now pass.old M.event in_any_case word (word_plus (pos by)) }
        requires slots { MayGive self.now pass.old M.event in_any_case slot }
        ensures belongs { IsOf self.now pass.new }
        ensures saw { HasMoved M.event in_any_case word result pass.old pass.new }
        ensures given { HasGiven slot pass.old pass.new }
    {
        let found = add_at::<C, GivingAway<C, M, K>>(
            &self.table.shared,
            &mut pass.seat,
            place(word),
            u64::from(by),
        );
        pass.held = M::held_after(pass.held, found, true);
        pass.owes = M::owes_after(pass.owes, found, true);
        pass.further = M::further_after(pass.further, found, true);
        found
    }

    /// Sets bits of a word of the client.
    pub fn or_word<M: Shown<C>>(&self, pass: &mut Pass<C>, word: u32, bits: u64) -> u64
        requires belongs { IsOf self.now pass.old }
        requires word { word < 4 }
        requires law { MayMove self.now pass.old M.event in_any_case word (λ n. bit_or n bits) }
        requires slots { MayKeep self.now pass.old M.event in_any_case }
        ensures belongs { IsOf self.now pass.new }
        ensures saw { HasMoved M.event in_any_case word result pass.old pass.new }
    {
        let found = or_at::<C, Show<C, M>>(&self.table.shared, &mut pass.seat, place(word), bits);
        pass.held = M::held_after(pass.held, found, true);
        pass.owes = M::owes_after(pass.owes, found, true);
        pass.further = M::further_after(pass.further, found, true);
        found
    }

    /// Writes `new` to a word of the client, if it is still `saw`.
    pub fn swap_word<M: Shown<C>>(&self, pass: &mut Pass<C>, word: u32, saw: u64, new: u64) -> u64
        requires belongs { IsOf self.now pass.old }
        requires word { word < 4 }
        requires law { MayMove self.now pass.old M.event (where_found saw) word
            (word_after_exchange saw new) }
        requires slots { MayKeep self.now pass.old M.event (where_found saw) }
        ensures belongs { IsOf self.now pass.new }
        ensures saw { HasMoved M.event (where_found saw) word result pass.old pass.new }
    {
        let found = exchange_at::<C, ShowExchange<C, M>>(
            &self.table.shared,
            &mut pass.seat,
            place(word),
            saw,
            new,
        );
        let made = found == saw;
        pass.held = M::held_after(pass.held, found, made);
        pass.owes = M::owes_after(pass.owes, found, made);
        pass.further = M::further_after(pass.further, found, made);
        found
    }
}
