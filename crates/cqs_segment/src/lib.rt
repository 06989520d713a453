//! The calls on segments, by a seat of a table: a slot is claimed and given back, a segment is
//! made, found, counted and taken out.
//!
//! ```text
//!           claim               extend: reset, make_live, exchange of the tail
//!  Free ------------> Claimed ------------------------------------------------> Live
//!   ^ ^                  |                                                        |
//!   | '--- give_back ----'                                                        |
//!   '------ retire: all 32 cells were counted (count_settled), and it isn't the last one
//! ```
//!
//! No call here makes an event of the queue: what the pass has seen of the history, does and holds
//! stays. Each is a few single steps, of which each keeps the rule of `cqs_rule_laws`. The pass's
//! view knows its spare slots, the cells that it is to count and what it knows of segments; here
//! the caller names a slot by its number.
#![tactic(auto)]

mod extending;
mod gaps;
mod heads;
mod leaving;
mod links;
mod places;
mod slots;
mod steps;
mod told;
mod walk;

pub use extending::{Extended, extend};
pub use gaps::close_gap;
pub use leaving::{CELLS, Retired, count_settled, retire, take_out};
pub use links::{next_of, pass_by};
pub use slots::{claim, confirm, give_back};
pub use walk::{Found, find, last};
