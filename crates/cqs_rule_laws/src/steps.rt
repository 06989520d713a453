//! The steps on a word of a client's table, by a seat, of which each keeps the rule: a load, a sum,
//! bits set, a rise, a store, and an exchange. What they tell a pass that is alone is proved here
//! once.

ghost use Rattle.std.specs.Prelude.{◌≡◌, ◌+◌, ◌%◌, ◌^◌, ◌<◌, ◌==◌, bit_or, max};
ghost use mathlib.Core.Option.{none};
ghost use prog.Atomic.{either};
ghost use Rattle.atomic_table.specs.Table.{step};
ghost use Rattle.cqs_rule_laws.specs.Allowed.{IsAllowed};
ghost use Rattle.cqs_rule_laws.specs.Alone.{TellsAlone};

use crate::client::ClientWords;
use crate::rule::{Key, Rule};
use crate::told::{Telling, Told};
use crate::view::View;
use atomic_table::{Seat, Shared};

/// Loads the word.
#[inline(always)]
pub fn load_at<C: ClientWords, T: Telling<C>>(
    words: &Shared<Option<C::Slot>, View<C::Entry, C::Slot>, Key<C>, Rule<C>>,
    seat: &mut Seat<Option<C::Slot>, View<C::Entry, C::Slot>>,
    word: u32,
) -> u64
    requires table { seat.old.table_id ≡ words.now.table_id }
    requires inside { word < words.now.table_id.words }
    requires allowed { IsAllowed C.object C.primitive words.now.key words.now.table_id.slots
        seat.old.id seat.old.me word (λ n. n)
        (T.told (step words.now.table_id.slots word 0 0 none) seat.old.me) }
    ensures table { seat.new.table_id ≡ seat.old.table_id }
    ensures told { T.told (step words.now.table_id.slots word 0 0 none) seat.old.me result
        seat.new.me }
    ensures alone { TellsAlone C.primitive seat.new.me.0 }
{
    words.load::<Told<C, T>>(seat, word as usize)
}

/// Adds to the word, which wraps.
#[inline(always)]
pub fn add_at<C: ClientWords, T: Telling<C>>(
    words: &Shared<Option<C::Slot>, View<C::Entry, C::Slot>, Key<C>, Rule<C>>,
    seat: &mut Seat<Option<C::Slot>, View<C::Entry, C::Slot>>,
    word: u32,
    by: u64,
) -> u64
    requires table { seat.old.table_id ≡ words.now.table_id }
    requires inside { word < words.now.table_id.words }
    requires allowed { IsAllowed C.object C.primitive words.now.key words.now.table_id.slots
        seat.old.id seat.old.me word (λ n. (n + by) % 2 ^ 64)
        (T.told (step words.now.table_id.slots word by 0 none) seat.old.me) }
    ensures table { seat.new.table_id ≡ seat.old.table_id }
    ensures told { T.told (step words.now.table_id.slots word by 0 none) seat.old.me result
        seat.new.me }
    ensures alone { TellsAlone C.primitive seat.new.me.0 }
{
    words.fetch_add::<Told<C, T>>(seat, word as usize, by)
}

/// Sets bits of the word.
#[inline(always)]
pub fn or_at<C: ClientWords, T: Telling<C>>(
    words: &Shared<Option<C::Slot>, View<C::Entry, C::Slot>, Key<C>, Rule<C>>,
    seat: &mut Seat<Option<C::Slot>, View<C::Entry, C::Slot>>,
    word: u32,
    bits: u64,
) -> u64
    requires table { seat.old.table_id ≡ words.now.table_id }
    requires inside { word < words.now.table_id.words }
    requires allowed { IsAllowed C.object C.primitive words.now.key words.now.table_id.slots
        seat.old.id seat.old.me word (λ n. bit_or n bits)
        (T.told (step words.now.table_id.slots word bits 0 none) seat.old.me) }
    ensures table { seat.new.table_id ≡ seat.old.table_id }
    ensures told { T.told (step words.now.table_id.slots word bits 0 none) seat.old.me result
        seat.new.me }
    ensures alone { TellsAlone C.primitive seat.new.me.0 }
{
    words.fetch_or::<Told<C, T>>(seat, word as usize, bits)
}

/// Raises the word to `least`, where it is less.
#[inline(always)]
pub fn max_at<C: ClientWords, T: Telling<C>>(
    words: &Shared<Option<C::Slot>, View<C::Entry, C::Slot>, Key<C>, Rule<C>>,
    seat: &mut Seat<Option<C::Slot>, View<C::Entry, C::Slot>>,
    word: u32,
    least: u64,
) -> u64
    requires table { seat.old.table_id ≡ words.now.table_id }
    requires inside { word < words.now.table_id.words }
    requires allowed { IsAllowed C.object C.primitive words.now.key words.now.table_id.slots
        seat.old.id seat.old.me word (λ n. max n least)
        (T.told (step words.now.table_id.slots word least 0 none) seat.old.me) }
    ensures table { seat.new.table_id ≡ seat.old.table_id }
    ensures told { T.told (step words.now.table_id.slots word least 0 none) seat.old.me result
        seat.new.me }
    ensures alone { TellsAlone C.primitive seat.new.me.0 }
{
    words.fetch_max::<Told<C, T>>(seat, word as usize, least)
}

/// Writes `new` to the word, whatever it was.
#[inline(always)]
pub fn store_at<C: ClientWords, T: Telling<C>>(
    words: &Shared<Option<C::Slot>, View<C::Entry, C::Slot>, Key<C>, Rule<C>>,
    seat: &mut Seat<Option<C::Slot>, View<C::Entry, C::Slot>>,
    word: u32,
    new: u64,
)
    requires table { seat.old.table_id ≡ words.now.table_id }
    requires inside { word < words.now.table_id.words }
    requires allowed { IsAllowed C.object C.primitive words.now.key words.now.table_id.slots
        seat.old.id seat.old.me word (λ _. new)
        (λ _. T.told (step words.now.table_id.slots word new 0 none) seat.old.me new) }
    ensures table { seat.new.table_id ≡ seat.old.table_id }
    ensures told { T.told (step words.now.table_id.slots word new 0 none) seat.old.me new
        seat.new.me }
    ensures alone { TellsAlone C.primitive seat.new.me.0 }
{
    words.store::<Told<C, T>>(seat, word as usize, new);
}

/// Writes `new` to the word, if it is `saw`.
#[inline(always)]
pub fn exchange_at<C: ClientWords, T: Telling<C>>(
    words: &Shared<Option<C::Slot>, View<C::Entry, C::Slot>, Key<C>, Rule<C>>,
    seat: &mut Seat<Option<C::Slot>, View<C::Entry, C::Slot>>,
    word: u32,
    saw: u64,
    new: u64,
) -> u64
    requires table { seat.old.table_id ≡ words.now.table_id }
    requires inside { word < words.now.table_id.words }
    requires allowed { IsAllowed C.object C.primitive words.now.key words.now.table_id.slots
        seat.old.id seat.old.me word (λ n. either (n == saw) new n)
        (T.told (step words.now.table_id.slots word saw new none) seat.old.me) }
    ensures table { seat.new.table_id ≡ seat.old.table_id }
    ensures told { T.told (step words.now.table_id.slots word saw new none) seat.old.me result
        seat.new.me }
    ensures alone { TellsAlone C.primitive seat.new.me.0 }
{
    words.compare_exchange::<Told<C, T>>(seat, word as usize, saw, new)
}
