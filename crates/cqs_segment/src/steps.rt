//! Single steps on the words of segments.

ghost use Rattle.std.specs.Prelude.{◌≡◌, ◌+◌, ◌*◌, ◌<◌, ◌≤◌, ◌^◌, [], length};
ghost use Rattle.cqs_words.specs.Head.{head_word};
ghost use Rattle.cqs_words.specs.Segment.{LinkFits, TailFits, packed_link, packed_tail};
ghost use Rattle.cqs_slots.specs.Slots.{IsHome};
ghost use Rattle.cqs_rule_laws.specs.Lists.{Has};
ghost use Rattle.cqs_rule_laws.specs.SegmentSteps.{Began, CellCounted, Claimed, CountLoaded, Extended, HeadLoaded, HeadSeen, LastKept, LinkLoaded, LinkRaised, Lit, Reset, Retired, TailLoaded, Went};
ghost use Rattle.cqs_segment.specs.Links.{HaveLeftBetween};
ghost use Rattle.cqs_segment.specs.Walks.{but_last, EndsAt, EndsReset, EndsWith, IsWalker};

use crate::places::{cell_at, count_at, head_at, link_at};
use crate::told::{
    Beginning, Claiming, CountLoad, Counting, Extending, GivingBack, HeadLoad, HeadLook,
    LastKeeping, Lighting, LinkLoad, Raising, Resetting, Retiring, TailLoad,
};
use atomic_table::{Seat, Shared};
use cqs_rule_laws::{
    ClientWords, Key, Rule, TAIL_WORD, View, add_at, exchange_at, load_at, max_at, store_at,
};
use cqs_words::{CellState, CellWord, HeadTag, HeadWord, LinkWord, TailWord};

pub(crate) fn load_tail<C: ClientWords>(
    words: &Shared<Option<C::Slot>, View<C::Entry, C::Slot>, Key<C>, Rule<C>>,
    seat: &mut Seat<Option<C::Slot>, View<C::Entry, C::Slot>>,
) -> TailWord
    requires table { seat.old.table_id ≡ words.now.table_id }
    requires walker { IsWalker words.now.table_id.words seat.old.me.0 }
    ensures table { seat.new.table_id ≡ seat.old.table_id }
    ensures loaded { TailLoaded seat.old.me.0 (packed_tail result) seat.new.me.0 }
    ensures fits { TailFits result }
    ensures bare { seat.new.me.1 ≡ seat.old.me.1 }
{
    let word = load_at::<C, TailLoad<C>>(words, seat, TAIL_WORD);
    match TailWord::unpack(word) {
        Some(tail) => tail,
        None => unreachable!(),
    }
}

// The same by a pass that is to retire a segment: the last one is none of those any more.
pub(crate) fn keep_last<C: ClientWords>(
    words: &Shared<Option<C::Slot>, View<C::Entry, C::Slot>, Key<C>, Rule<C>>,
    seat: &mut Seat<Option<C::Slot>, View<C::Entry, C::Slot>>,
) -> TailWord
    requires table { seat.old.table_id ≡ words.now.table_id }
    requires walker { IsWalker words.now.table_id.words seat.old.me.0 }
    ensures table { seat.new.table_id ≡ seat.old.table_id }
    ensures kept { LastKept seat.old.me.0 (packed_tail result) seat.new.me.0 }
    ensures fits { TailFits result }
    ensures bare { seat.new.me.1 ≡ seat.old.me.1 }
{
    let word = load_at::<C, LastKeeping<C>>(words, seat, TAIL_WORD);
    match TailWord::unpack(word) {
        Some(tail) => tail,
        None => unreachable!(),
    }
}

pub(crate) fn load_head<C: ClientWords>(
    words: &Shared<Option<C::Slot>, View<C::Entry, C::Slot>, Key<C>, Rule<C>>,
    seat: &mut Seat<Option<C::Slot>, View<C::Entry, C::Slot>>,
    slot: u32,
) -> u64
    requires table { seat.old.table_id ≡ words.now.table_id }
    requires walker { IsWalker words.now.table_id.words seat.old.me.0 }
    requires low { slot < seat.old.me.0.slots }
    ensures table { seat.new.table_id ≡ seat.old.table_id }
    ensures loaded { HeadLoaded slot seat.old.me.0 result seat.new.me.0 }
    ensures bare { seat.new.me.1 ≡ seat.old.me.1 }
{
    load_at::<C, HeadLoad<C>>(words, seat, head_at(slot))
}

// The same by a pass that took a segment out, and looks for its neighbours.
pub(crate) fn see_head<C: ClientWords>(
    words: &Shared<Option<C::Slot>, View<C::Entry, C::Slot>, Key<C>, Rule<C>>,
    seat: &mut Seat<Option<C::Slot>, View<C::Entry, C::Slot>>,
    slot: u32,
) -> u64
    requires table { seat.old.table_id ≡ words.now.table_id }
    requires walker { IsWalker words.now.table_id.words seat.old.me.0 }
    requires low { slot < seat.old.me.0.slots }
    ensures table { seat.new.table_id ≡ seat.old.table_id }
    ensures seen { HeadSeen slot seat.old.me.0 result seat.new.me.0 }
    ensures bare { seat.new.me.1 ≡ seat.old.me.1 }
{
    load_at::<C, HeadLook<C>>(words, seat, head_at(slot))
}

pub(crate) fn load_link<C: ClientWords>(
    words: &Shared<Option<C::Slot>, View<C::Entry, C::Slot>, Key<C>, Rule<C>>,
    seat: &mut Seat<Option<C::Slot>, View<C::Entry, C::Slot>>,
    slot: u32,
) -> LinkWord
    requires table { seat.old.table_id ≡ words.now.table_id }
    requires walker { IsWalker words.now.table_id.words seat.old.me.0 }
    requires low { slot < seat.old.me.0.slots }
    ensures table { seat.new.table_id ≡ seat.old.table_id }
    ensures loaded { LinkLoaded slot seat.old.me.0 (packed_link result) seat.new.me.0 }
    ensures fits { LinkFits result }
    ensures bare { seat.new.me.1 ≡ seat.old.me.1 }
{
    let word = load_at::<C, LinkLoad<C>>(words, seat, link_at(slot));
    match LinkWord::unpack(word) {
        Some(link) => link,
        None => unreachable!(),
    }
}

// Raises the link of a segment's slot to a later segment, if it isn't above that.
pub(crate) fn raise_link<C: ClientWords>(
    words: &Shared<Option<C::Slot>, View<C::Entry, C::Slot>, Key<C>, Rule<C>>,
    seat: &mut Seat<Option<C::Slot>, View<C::Entry, C::Slot>>,
    from: LinkWord,
    to: LinkWord,
)
    requires table { seat.old.table_id ≡ words.now.table_id }
    requires walker { IsWalker words.now.table_id.words seat.old.me.0 }
    requires low { from.slot < seat.old.me.0.slots }
    requires fits { LinkFits to }
    requires from { IsHome seat.old.me.0.segments.homes from.id from.slot }
    requires to { IsHome seat.old.me.0.segments.homes to.id to.slot }
    requires passed { HaveLeftBetween from.id to.id seat.old.me.0 }
    ensures table { seat.new.table_id ≡ seat.old.table_id }
    ensures raised { LinkRaised from.slot (packed_link to) seat.old.me.0 seat.new.me.0 }
    ensures bare { seat.new.me.1 ≡ seat.old.me.1 }
{
    max_at::<C, Raising<C>>(words, seat, link_at(from.slot), to.pack());
}

pub(crate) fn load_count<C: ClientWords>(
    words: &Shared<Option<C::Slot>, View<C::Entry, C::Slot>, Key<C>, Rule<C>>,
    seat: &mut Seat<Option<C::Slot>, View<C::Entry, C::Slot>>,
    slot: u32,
) -> u64
    requires table { seat.old.table_id ≡ words.now.table_id }
    requires walker { IsWalker words.now.table_id.words seat.old.me.0 }
    requires low { slot < seat.old.me.0.slots }
    ensures table { seat.new.table_id ≡ seat.old.table_id }
    ensures loaded { CountLoaded slot seat.old.me.0 result seat.new.me.0 }
    ensures bare { seat.new.me.1 ≡ seat.old.me.1 }
{
    load_at::<C, CountLoad<C>>(words, seat, count_at(slot))
}

// Claims the slot, if its head is free with this id.
pub(crate) fn claim_slot<C: ClientWords>(
    words: &Shared<Option<C::Slot>, View<C::Entry, C::Slot>, Key<C>, Rule<C>>,
    seat: &mut Seat<Option<C::Slot>, View<C::Entry, C::Slot>>,
    slot: u32,
    id: u64,
) -> u64
    requires table { seat.old.table_id ≡ words.now.table_id }
    requires walker { IsWalker words.now.table_id.words seat.old.me.0 }
    requires low { slot < seat.old.me.0.slots }
    requires small { id < 2 ^ 36 }
    ensures table { seat.new.table_id ≡ seat.old.table_id }
    ensures claimed { Claimed slot (head_word id 0) seat.old.me.0 result seat.new.me.0 }
    ensures bare { seat.new.me.1 ≡ seat.old.me.1 }
{
    let tag = HeadTag::Free;
    let free = HeadWord { id, tag }.pack();
    let tag = HeadTag::Claimed;
    let claimed = HeadWord { id, tag }.pack();
    exchange_at::<C, Claiming<C>>(words, seat, head_at(slot), free, claimed)
}

// Makes a claimed head free again. The pass alone writes there, and its id stays.
pub(crate) fn give_slot<C: ClientWords>(
    words: &Shared<Option<C::Slot>, View<C::Entry, C::Slot>, Key<C>, Rule<C>>,
    seat: &mut Seat<Option<C::Slot>, View<C::Entry, C::Slot>>,
    slot: u32,
)
    requires table { seat.old.table_id ≡ words.now.table_id }
    requires walker { IsWalker words.now.table_id.words seat.old.me.0 }
    requires low { slot < seat.old.me.0.slots }
    requires last { EndsWith seat.old.me.0.facts.spare_slots slot }
    ensures table { seat.new.table_id ≡ seat.old.table_id }
    ensures given { Went (but_last seat.old.me.0.facts.spare_slots) [] seat.old.me.0
        seat.new.me.0 }
    ensures bare { seat.new.me.1 ≡ seat.old.me.1 }
{
    // The sum wraps, so the tag is one less: that of a free head.
    add_at::<C, GivingBack<C>>(words, seat, head_at(slot), u64::MAX);
}

// Loads the tail; the spare is to be reset for the segment after it.
pub(crate) fn begin<C: ClientWords>(
    words: &Shared<Option<C::Slot>, View<C::Entry, C::Slot>, Key<C>, Rule<C>>,
    seat: &mut Seat<Option<C::Slot>, View<C::Entry, C::Slot>>,
    slot: u32,
) -> TailWord
    requires table { seat.old.table_id ≡ words.now.table_id }
    requires walker { IsWalker words.now.table_id.words seat.old.me.0 }
    requires last { EndsWith seat.old.me.0.facts.spare_slots slot }
    ensures table { seat.new.table_id ≡ seat.old.table_id }
    ensures began { Began (but_last seat.old.me.0.facts.spare_slots) slot seat.old.me.0
        (packed_tail result) seat.new.me.0 }
    ensures fits { TailFits result }
    ensures bare { seat.new.me.1 ≡ seat.old.me.1 }
{
    let word = load_at::<C, Beginning<C>>(words, seat, TAIL_WORD);
    match TailWord::unpack(word) {
        Some(tail) => tail,
        None => unreachable!(),
    }
}

pub(crate) fn reset_cell<C: ClientWords>(
    words: &Shared<Option<C::Slot>, View<C::Entry, C::Slot>, Key<C>, Rule<C>>,
    seat: &mut Seat<Option<C::Slot>, View<C::Entry, C::Slot>>,
    slot: u32,
    after: u64,
    cell: u32,
)
    requires table { seat.old.table_id ≡ words.now.table_id }
    requires walker { IsWalker words.now.table_id.words seat.old.me.0 }
    requires low { slot < seat.old.me.0.slots }
    requires small { 32 * (after + 2) ≤ 2 ^ 40 }
    requires cell { cell < 32 }
    requires last { EndsReset seat.old.me.0.facts.spare_slots slot after (cell + 1) }
    ensures table { seat.new.table_id ≡ seat.old.table_id }
    ensures reset { Reset (but_last seat.old.me.0.facts.spare_slots) slot after (cell + 1)
        seat.old.me.0 seat.new.me.0 }
    ensures bare { seat.new.me.1 ≡ seat.old.me.1 }
{
    let empty = CellWord::bare(32 * (after + 1) + u64::from(cell), CellState::Empty).pack();
    store_at::<C, Resetting<C>>(words, seat, cell_at(slot, cell), empty);
}

pub(crate) fn reset_count<C: ClientWords>(
    words: &Shared<Option<C::Slot>, View<C::Entry, C::Slot>, Key<C>, Rule<C>>,
    seat: &mut Seat<Option<C::Slot>, View<C::Entry, C::Slot>>,
    slot: u32,
    after: u64,
)
    requires table { seat.old.table_id ≡ words.now.table_id }
    requires walker { IsWalker words.now.table_id.words seat.old.me.0 }
    requires low { slot < seat.old.me.0.slots }
    requires last { EndsReset seat.old.me.0.facts.spare_slots slot after 33 }
    ensures table { seat.new.table_id ≡ seat.old.table_id }
    ensures reset { Reset (but_last seat.old.me.0.facts.spare_slots) slot after 33
        seat.old.me.0 seat.new.me.0 }
    ensures bare { seat.new.me.1 ≡ seat.old.me.1 }
{
    store_at::<C, Resetting<C>>(words, seat, count_at(slot), 0);
}

// Makes the head of a segment live, if it is still claimed under this earlier id.
pub(crate) fn light<C: ClientWords>(
    words: &Shared<Option<C::Slot>, View<C::Entry, C::Slot>, Key<C>, Rule<C>>,
    seat: &mut Seat<Option<C::Slot>, View<C::Entry, C::Slot>>,
    made: TailWord,
    id: u64,
)
    requires table { seat.old.table_id ≡ words.now.table_id }
    requires walker { IsWalker words.now.table_id.words seat.old.me.0 }
    requires low { made.slot < seat.old.me.0.slots }
    requires fits { TailFits made }
    requires home { IsHome seat.old.me.0.segments.homes made.id made.slot }
    requires kept { IsHome seat.old.me.0.segments.kept made.id id }
    requires earlier { id < made.id }
    ensures table { seat.new.table_id ≡ seat.old.table_id }
    ensures lit { Lit made.id seat.old.me.0 seat.new.me.0 }
    ensures bare { seat.new.me.1 ≡ seat.old.me.1 }
{
    let tag = HeadTag::Claimed;
    let claimed = HeadWord { id, tag }.pack();
    let id = made.id;
    let tag = HeadTag::Live;
    let live = HeadWord { id, tag }.pack();
    exchange_at::<C, Lighting<C>>(words, seat, head_at(made.slot), claimed, live);
}

// The tail goes on to the spare, if it is still this one. It answers the tail that it found.
pub(crate) fn swap_tail<C: ClientWords>(
    words: &Shared<Option<C::Slot>, View<C::Entry, C::Slot>, Key<C>, Rule<C>>,
    seat: &mut Seat<Option<C::Slot>, View<C::Entry, C::Slot>>,
    after: TailWord,
    made: TailWord,
) -> TailWord
    requires table { seat.old.table_id ≡ words.now.table_id }
    requires walker { IsWalker words.now.table_id.words seat.old.me.0 }
    requires after { TailFits after }
    requires made { TailFits made }
    requires next { made.id ≡ after.id + 1 }
    requires home { IsHome seat.old.me.0.segments.homes after.id after.slot }
    requires lit { after.id < seat.old.me.0.segments.lit }
    requires last { EndsReset seat.old.me.0.facts.spare_slots made.slot after.id 34 }
    ensures table { seat.new.table_id ≡ seat.old.table_id }
    ensures extended { Extended (but_last seat.old.me.0.facts.spare_slots) made.slot
        after.id after.slot seat.old.me.0 (packed_tail result) seat.new.me.0 }
    ensures fits { TailFits result }
    ensures bare { seat.new.me.1 ≡ seat.old.me.1 }
{
    let word = exchange_at::<C, Extending<C>>(words, seat, TAIL_WORD, after.pack(), made.pack());
    match TailWord::unpack(word) {
        Some(tail) => tail,
        None => unreachable!(),
    }
}

// Counts the last of the cells that the pass is to count. It answers how many were counted before.
#[inline(always)]
pub(crate) fn add_count<C: ClientWords>(
    words: &Shared<Option<C::Slot>, View<C::Entry, C::Slot>, Key<C>, Rule<C>>,
    seat: &mut Seat<Option<C::Slot>, View<C::Entry, C::Slot>>,
    slot: u32,
    id: u64,
) -> u64
    requires table { seat.old.table_id ≡ words.now.table_id }
    requires walker { IsWalker words.now.table_id.words seat.old.me.0 }
    requires low { slot < seat.old.me.0.slots }
    requires home { IsHome seat.old.me.0.segments.homes id slot }
    requires last { EndsAt seat.old.me.0.facts.duties id }
    ensures table { seat.new.table_id ≡ seat.old.table_id }
    ensures counted { CellCounted (but_last seat.old.me.0.facts.duties) id seat.old.me.0
        result seat.new.me.0 }
    ensures bare { seat.new.me.1 ≡ seat.old.me.1 }
{
    add_at::<C, Counting<C>>(words, seat, count_at(slot), 1)
}

// Frees the slot of the segment, if its head is still live with this id. It answers whether it was.
pub(crate) fn retire_slot<C: ClientWords>(
    words: &Shared<Option<C::Slot>, View<C::Entry, C::Slot>, Key<C>, Rule<C>>,
    seat: &mut Seat<Option<C::Slot>, View<C::Entry, C::Slot>>,
    slot: u32,
    id: u64,
) -> u64
    requires table { seat.old.table_id ≡ words.now.table_id }
    requires walker { IsWalker words.now.table_id.words seat.old.me.0 }
    requires low { slot < seat.old.me.0.slots }
    requires small { id < 2 ^ 36 }
    requires home { IsHome seat.old.me.0.segments.homes id slot }
    requires early { id + 1 < length seat.old.me.0.segments.homes }
    requires full { Has id seat.old.me.0.segments.full }
    ensures table { seat.new.table_id ≡ seat.old.table_id }
    ensures retired { Retired slot id seat.old.me.0 result seat.new.me.0 }
    ensures bare { seat.new.me.1 ≡ seat.old.me.1 }
{
    let tag = HeadTag::Live;
    let live = HeadWord { id, tag }.pack();
    let tag = HeadTag::Free;
    let free = HeadWord { id, tag }.pack();
    exchange_at::<C, Retiring<C>>(words, seat, head_at(slot), live, free)
}
