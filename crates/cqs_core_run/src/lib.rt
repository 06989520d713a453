//! The model of the queue as a program: a core on plain data, which makes the events of `cqs_core`
//! one at a time, and whole calls over them.
//!
//! A `Table` has the fields and one method for each row of the table of events. A `Core` is a table
//! with the invariant that it is a core: its history is legal, and it shows the plain semaphore
//! after it. It is synchronous or not, as it was made.
#![tactic(auto)]

mod runnable;
mod table;
mod whole_calls;

pub use runnable::{Core, Outcomes};
