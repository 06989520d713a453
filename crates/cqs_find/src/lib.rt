//! Where the cell of a number stands.
//!
//! ```text
//!  number --- its segment is one that the pass keeps ------------------> At
//!     |
//!     '--- find: the tail, then the heads --- it stands in a slot -------> At, and is kept
//!                                         |--- it was taken out ---------> Over
//!                                         '--- it isn't made: it is made, in a spare slot
//!                                              of the pass, and looked for again
//! ```
#![tactic(auto)]

mod found;
mod links;
mod passed;
mod placed;

pub use found::{Found, find};
pub use links::{next_of, pass_by};
pub use passed::place_after;
pub use placed::locate;
