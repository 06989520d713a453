//! Slots for segments, as plain data.
//!
//! A table has one word that names the last segment, the tail, and 48 words for each slot `x`:
//!
//! ```text
//! word 112            id and slot of the last segment
//! word 48 x + 128     the head of slot x: an id, and Free, Claimed or Live
//!      48 x + 129     the link of slot x: id and slot of a later segment, or 0
//!      48 x + 136     how many cells of its segment are settled and counted
//!      48 x + 144 ..  its 32 cells: in the home of segment s, numbers 32 s to 32 s + 31
//! ```
//!
//! A slot is used again and again, each time under a higher id:
//!
//! ```text
//!          claim             reset, extend                light
//! free i --------> spare i -----------------> fresh s i --------> live s
//!   ^ ^              |                                              |
//!   | '-- give back -'                                              |
//!   '--------------- retire: all 32 cells counted, not the tail ----'
//! ```
//!
//! A spare belongs to one pass. It is reset word by word, and one exchange of the tail makes it the
//! home of the segment after the last. Its head is still claimed then, under the id `i` that the
//! slot had before, until its maker or the next one who extends makes it live. A pass that settles
//! a cell counts it; who counts the 32nd retires the segment.
//!
//! A link only rises: all segments between the one that stands in its slot and the one that it
//! names are out. It isn't reset where the slot is used again, since all that it can name then
//! comes before the new segment.
//!
//! All this is said over two functions: which word the cell of each number is to have, and which
//! cells are settled. So nothing here knows of a queue, a pass or a rule.
#![tactic(auto)]

mod laws;
mod seen;

pub use laws::{
    cells_are_written, claimed_heads_are_lit, found_words_are_later, free_slots_are_claimed,
    full_segments_leave, links_are_raised, loads_tell, reset_spares_become_the_tail,
    segments_leave_settled, settled_cells_are_counted, slots_open, spares_are_given_back,
    spares_are_reset, unsettled_cells_are_few,
};
pub use seen::Seen;
