//! The queue, and the passes that callers make its steps with.

ghost use Rattle.std.specs.Prelude.{◌≡◌, ◌+◌, ◌<◌, ◌≤◌, ◌^◌, [], length, None};
ghost use Rattle.cqs_rule_laws.specs.Inside.{IsInside};
ghost use Rattle.cqs_rule_laws.specs.Layout.{words_for};
ghost use Rattle.cqs_rule_laws.specs.Loads.{IsTicketOf};
ghost use Rattle.cqs_rule_laws.specs.Facts.{is_owing};
ghost use Rattle.cqs_rule.specs.Homes.{KnowsHomes};
ghost use Rattle.cqs_rule.specs.Spares.{HasSpare};
ghost use Rattle.cqs_slots.specs.Layout.{slot_words};

mod claiming;
mod counting;
mod histories;
mod homes;
mod jumping;
mod making;
mod opening;
mod parked;
mod parking;
mod passing;
mod putting;
mod readers;
mod seats;
mod segments;
mod slots;
mod spares;
mod steps;
mod tokens;
mod words;

use atomic_table::{Seat, Table};
use cqs_rule_laws::{CancelMode, ClientWords, Key, Rule, View};
use homes::Homes;
use parked::Parked;
pub(crate) use slots::Numbered;
use spares::Spares;
use std::alloc::Global;
pub use tokens::{Under, Wait};

/// A queue on one table of words. Its steps are made through a shared reference, with a pass.
#[derive(Drop)]
pub struct Queue<C: ClientWords> {
    table: Table<Option<C::Slot>, View<C::Entry, C::Slot>, Key<C>, Rule<C>, Global>,
    passes: u32,
    limit: u64,
    segment_slots: u32,
    // Whether the slots are enough for all segments that can be wanted, which then are made.
    ample: bool,
    mode: CancelMode,
    // How often a resume looks at the value that it left, in a synchronous queue.
    looks: u32,
    parked: Parked,
    ghost passes_are: { table.shared.key.passes ≡ passes },
    ghost few_passes: { passes ≤ 32 },
    ghost limit_is: { table.shared.key.limit ≡ limit },
    ghost slots_are: { table.shared.table_id.words ≡ slot_words segment_slots },
    ghost few_slots: { segment_slots ≤ 65536 },
}

/// What a caller makes steps with. Contracts see what it has seen of the queue, and what it is
/// doing there.
#[derive(Drop)]
pub struct Pass<C: ClientWords> {
    seat: Seat<Option<C::Slot>, View<C::Entry, C::Slot>>,
    number: u32,
    held: u32,
    further: u32,
    owes: bool,
    waits: u32,
    // The last number that it drew: that of its ticket, while it has one.
    ticket: u64,
    spares: Spares,
    homes: Homes,
    pub ghost live: { (seat.me.0.weight ≡ 1) × (length seat.me.1 ≡ 0) },
    pub ghost number_is: { seat.me.0.number ≡ number },
    pub ghost held_is: { seat.me.0.facts.has.held ≡ held },
    pub ghost further_is: { seat.me.0.facts.has.further ≡ further },
    pub ghost spares_are: { HasSpare seat.me.0.facts.spare_slots seat.me.0.slots spares },
    pub ghost homes_are: { KnowsHomes seat.me.0 homes },
    // Between any two of its calls each cell that it settled is counted, and it is to retire no
    // segment.
    pub ghost counted: { seat.me.0.facts.duties ≡ [] },
    pub ghost retired: { seat.me.0.facts.to_retire ≡ [] },
    pub ghost shut: { seat.me.0.facts.open_slot ≡ None },
    pub ghost owes_is: { is_owing seat.me.0.facts.doing ≡ owes },
    pub ghost waits_are: { length seat.me.0.facts.waits ≡ waits },
    pub ghost ticket_is: { IsTicketOf seat.me.0.facts.doing ticket },
    pub ghost slots_are: { words_for seat.me.0.slots ≡ seat.table_id.words },
    pub ghost inside: { IsInside seat.me.0 },
    pub ghost few_cells: { seat.me.0.cells < 2 ^ 37 },
}
