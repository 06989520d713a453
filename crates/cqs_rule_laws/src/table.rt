//! How the table of a queue opens.

ghost use Rattle.std.specs.Prelude.{◌≡◌, ◌+◌, ◌-◌, ◌*◌, ◌<◌, ◌≤◌, ◌^◌, true, [], IfOk};
ghost use Rattle.cqs_rule_laws.specs.Alone.{TellsAlone};
ghost use Rattle.cqs_rule_laws.specs.Ample.{AreEnough};
ghost use Rattle.cqs_rule_laws.specs.Configured.{is_config};
ghost use Rattle.cqs_rule_laws.specs.Layout.{words_for};
ghost use Rattle.cqs_rule_laws.specs.Opened.{first_in_slot, first_word, IsOpening};
ghost use Rattle.cqs_rule_laws.specs.Ruled.{cell_count};
ghost use Rattle.cqs_rule_laws.specs.Saw.{IsLive};
ghost use Rattle.cqs_rule_laws.specs.Views.{first_view};
ghost use Rattle.cqs_words.specs.Segment.{segment_word};

use crate::client::ClientWords;
use crate::config::Config;
use crate::layout::{SLOT_CELLS, SLOT_STRIDE, SLOTS_WORD};
use crate::rule::{Key, Rule};
use crate::view::View;
use atomic_table::{Seat, Table};
use cqs_words::{CellState, CellWord, CrewWord, HeadTag, HeadWord, TailWord};
use std::alloc::{AllocError, Global};

// What a cell opens as: each value's cell has the value of its own number.
fn first_cell(values: u64, index: u64) -> u64
    requires few { values ≤ 4096 }
    requires small { index < 2 ^ 40 }
    ensures { result ≡ Rattle.cqs_rule_laws.specs.Opened.first_cell values index }
{
    if index < values {
        let payload = index as u32;
        CellWord {
            index,
            state: CellState::Value,
            payload,
        }
        .pack()
    } else {
        CellWord::bare(index, CellState::Empty).pack()
    }
}

// The opening value of the client's word, where it has one.
fn client_word<C: ClientWords>(client: &C, word: u32) -> u64
    ensures { result ≡ Rattle.std.specs.Prelude.slice_index ((C.primitive client.now).words) word }
{
    if word < client.words() {
        client.opening(word)
    } else {
        0
    }
}

// The opening value of a word of a slot: the segment of its number is made there, if it is one of
// these.
fn slot_word(made: u64, values: u64, slot: u64, place: u64) -> u64
    requires few { values ≤ 4096 }
    requires small { slot < 65536 }
    requires inside { place < 48 }
    ensures { result ≡ first_in_slot made values slot place }
{
    if place == 0 {
        if slot >= made {
            return 0;
        }
        HeadWord {
            id: slot,
            tag: HeadTag::Live,
        }
        .pack()
    } else if place < SLOT_CELLS {
        0
    } else {
        first_cell(values, 32 * slot + (place - SLOT_CELLS))
    }
}

// The word that names the last segment that is made, in the slot of its number.
fn tail_word(made: u64) -> u64
    requires some { 0 < made }
    requires few { made ≤ 65536 }
    ensures { result ≡ segment_word (made - 1) (made - 1) }
{
    let last = made - 1;
    TailWord {
        id: last,
        slot: last as u32,
    }
    .pack()
}

// The opening value of a word of the table.
fn word_at<C: ClientWords>(client: &C, made: u64, place: usize) -> u64
    requires few { (C.primitive client.now).values ≤ 4096 }
    requires some { 0 < made }
    requires few_slots { made ≤ 65536 }
    requires inside { place < 48 * 65536 + 128 }
    ensures { result ≡ first_word made ((C.primitive client.now).values)
        ((C.primitive client.now).words) place }
{
    match place {
        0 => CrewWord { made: 1, live: 1 }.pack(),
        32 => u64::from(client.values()),
        48 => client_word(client, 0),
        64 => client_word(client, 1),
        80 => client_word(client, 2),
        96 => client_word(client, 3),
        112 => tail_word(made),
        _ => {
            if place < SLOTS_WORD as usize {
                0
            } else {
                let behind = place as u64 - u64::from(SLOTS_WORD);
                slot_word(
                    made,
                    u64::from(client.values()),
                    behind / SLOT_STRIDE,
                    behind % SLOT_STRIDE,
                )
            }
        }
    }
}

fn opening_words<C: ClientWords>(
    alloc: Global,
    slots: u64,
    made: u64,
    client: &C,
) -> Result<Vec<u64>, AllocError>
    requires few { (C.primitive client.now).values ≤ 4096 }
    requires some { 0 < made }
    requires few_made { made ≤ 65536 }
    requires few_slots { slots ≤ 65536 }
    ensures { IfOk result (λ words. IsOpening (48 * slots + 128) made
        ((C.primitive client.now).values) ((C.primitive client.now).words) words.items) }
{
    let count = slots as usize * SLOT_STRIDE as usize + SLOTS_WORD as usize;
    let mut words = Vec::with_capacity(alloc, count)?;
    for place in 0..count {
        words.push(word_at(client, made, place))?;
    }
    Ok(words)
}

/// The table of a client's queue as it opens, with room for `slots` segments, of which the first
/// `made` are made: all that hold values, and in an ample table all that can be wanted; and its one
/// seat, whose pass has number 0 and has seen nothing.
pub fn open_table<C: ClientWords>(
    alloc: Global,
    config: &Config,
    slots: u32,
    made: u32,
    client: C,
) -> Result<
    (
        Table<Option<C::Slot>, View<C::Entry, C::Slot>, Key<C>, Rule<C>, Global>,
        Seat<Option<C::Slot>, View<C::Entry, C::Slot>>,
    ),
    AllocError,
>
    requires good { is_config config.now ≡ true }
    requires suits { config.now.limit ≤ (C.primitive client).most_limit }
    requires few { (C.primitive client).values ≤ 4096 }
    requires some { 0 < made }
    requires fit { made ≤ slots }
    requires few_slots { slots ≤ 65536 }
    requires values { (C.primitive client).values ≤ 32 * made }
    requires ample { AreEnough
        (cell_count config.now.passes config.now.limit (C.primitive client).values)
        config.now.passes slots
        → cell_count config.now.passes config.now.limit (C.primitive client).values ≤ 32 * made }
    ensures key { IfOk result (λ opened. (opened.0.shared.key.client ≡ client)
        × (opened.0.shared.key.passes ≡ config.now.passes)
        × (opened.0.shared.key.limit ≡ config.now.limit)
        × (opened.0.shared.key.slots ≡ slots) × (opened.0.shared.key.made ≡ made)) }
    ensures table { IfOk result (λ opened. (opened.0.shared.table_id.slots ≡ C.value_slots client)
        × (opened.1.table_id ≡ opened.0.shared.table_id)
        × (opened.1.table_id.words ≡ words_for slots)) }
    ensures seat { IfOk result (λ opened. (opened.1.me ≡ (
      first_view config.now.passes config.now.limit
          (cell_count config.now.passes config.now.limit (C.primitive client).values) slots made
          (C.primitive client).opening (C.primitive client).held,
      [],
    ))
        × IsLive C.object opened.1.me.0 × TellsAlone C.primitive opened.1.me.0) }
{
    let passes = u64::from(config.passes);
    let slots = u64::from(slots);
    let made = u64::from(made);
    let words = opening_words(alloc, slots, made, &client)?;
    let value_slots = client.slots() as usize;
    let key = Key {
        passes,
        limit: config.limit,
        slots,
        made,
        client,
    };
    Table::vacant(alloc, words.as_slice(), value_slots, &key)
}
