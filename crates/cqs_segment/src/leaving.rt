//! Settled cells are counted, and a segment leaves.

ghost use Rattle.std.specs.Prelude.{◌≡◌, ◌<◌, ◌≤◌, ◌^◌};
ghost use mathlib.Core.Logic.{◌↔◌};
ghost use Rattle.cqs_slots.specs.Slots.{IsHome};
ghost use Rattle.cqs_rule_laws.specs.Lists.{Has};
ghost use Rattle.cqs_segment.specs.Finds.{Counts, HasDone, IsDoneWith, TakesOut};
ghost use Rattle.cqs_segment.specs.Walks.{EndsAt, IsWalker};

use crate::gaps::close_gap;
use crate::steps::{add_count, keep_last, load_count, retire_slot};
use atomic_table::{Seat, Shared};
use cqs_rule_laws::{ClientWords, Key, Rule, View};
use cqs_words::{HeadTag, HeadWord};

/// How many cells a segment has.
pub const CELLS: u64 = 32;

/// What became of a segment.
#[derive(Clone, Copy)]
pub enum Retired {
    /// It left by this call, and its slot is free.
    Out,
    /// It had left before.
    Gone,
    /// It is the last one.
    Last,
    /// So many of its cells, fewer than 32, were loaded as counted.
    Early(u32),
}

/// Counts a cell that the pass settled: the last of those that it is to count, one of this
/// segment. It answers how many of the segment's cells are counted then, this one among them. Where
/// all are, the pass is to retire the segment.
#[inline(always)]
pub fn count_settled<C: ClientWords>(
    words: &Shared<Option<C::Slot>, View<C::Entry, C::Slot>, Key<C>, Rule<C>>,
    seat: &mut Seat<Option<C::Slot>, View<C::Entry, C::Slot>>,
    slot: u32,
    id: u64,
) -> u32
    requires table { seat.old.table_id ≡ words.now.table_id }
    requires walker { IsWalker words.now.table_id.words seat.old.me.0 }
    requires low { slot < seat.old.me.0.slots }
    requires home { IsHome seat.old.me.0.segments.homes id slot }
    requires last { EndsAt seat.old.me.0.facts.duties id }
    ensures table { seat.new.table_id ≡ seat.old.table_id }
    ensures some { 0 < result }
    ensures few { result ≤ 32 }
    ensures all { (result ≡ 32) ↔ Has id seat.new.me.0.segments.full }
    ensures counted { Counts id result seat.old.me.0 seat.new.me.0 }
    ensures bare { seat.new.me.1 ≡ seat.old.me.1 }
{
    add_count::<C>(words, seat, slot, id) as u32 + 1
}

/// Takes a segment out where its 32 cells are counted and it isn't the last one. The slot is, or
/// was, its home. The pass isn't to retire it any more then, whatever the answer.
pub fn retire<C: ClientWords>(
    words: &Shared<Option<C::Slot>, View<C::Entry, C::Slot>, Key<C>, Rule<C>>,
    seat: &mut Seat<Option<C::Slot>, View<C::Entry, C::Slot>>,
    slot: u32,
    id: u64,
) -> Retired
    requires table { seat.old.table_id ≡ words.now.table_id }
    requires walker { IsWalker words.now.table_id.words seat.old.me.0 }
    requires low { slot < seat.old.me.0.slots }
    requires small { id < 2 ^ 36 }
    requires home { IsHome seat.old.me.0.segments.homes id slot }
    ensures table { seat.new.table_id ≡ seat.old.table_id }
    ensures retires { IsDoneWith slot id result seat.old.me.0 seat.new.me.0 }
    ensures bare { seat.new.me.1 ≡ seat.old.me.1 }
{
    if keep_last::<C>(words, seat).id == id {
        return Retired::Last;
    }
    let counted = load_count::<C>(words, seat, slot);
    if counted < CELLS {
        return Retired::Early(counted as u32);
    }
    let tag = HeadTag::Live;
    if retire_slot::<C>(words, seat, slot, id) == (HeadWord { id, tag }).pack() {
        Retired::Out
    } else {
        Retired::Gone
    }
}

/// The same, and where the segment left by this call, it is passed by.
pub fn take_out<C: ClientWords>(
    words: &Shared<Option<C::Slot>, View<C::Entry, C::Slot>, Key<C>, Rule<C>>,
    seat: &mut Seat<Option<C::Slot>, View<C::Entry, C::Slot>>,
    slots: u32,
    slot: u32,
    id: u64,
) -> Retired
    requires table { seat.old.table_id ≡ words.now.table_id }
    requires walker { IsWalker words.now.table_id.words seat.old.me.0 }
    requires all { slots ≡ seat.old.me.0.slots }
    requires low { slot < seat.old.me.0.slots }
    requires small { id < 2 ^ 36 }
    requires home { IsHome seat.old.me.0.segments.homes id slot }
    ensures table { seat.new.table_id ≡ seat.old.table_id }
    ensures takes { TakesOut slot id result seat.old.me.0 seat.new.me.0 }
    ensures done { HasDone id seat.old.me.0 seat.new.me.0 }
    ensures bare { seat.new.me.1 ≡ seat.old.me.1 }
{
    let retired = retire::<C>(words, seat, slot, id);
    if let Retired::Out = retired {
        close_gap::<C>(words, seat, slots, id);
    }
    retired
}
