//! A blocking pool of values: each element of a pool, and a value that moves with it.
//!
//! ```text
//!  take --- an element is free, or was just put --> Took, with the item: its value
//!     '---- none is: the caller waits ------------> Later, then poll or cancel
//!
//!  put, with the item --- somebody waits ---------> Sent
//!     '------------------ nobody does ------------> Left, and it is free again;
//!                                                    or Under, then finish
//! ```
//!
//! The value of an element lies in its slot of the table, or in one item. A new item has the value
//! that the last put of its number handed in, or else its opening value. An item that is dropped
//! keeps its value and its element: the pool has one fewer for good.
#![tactic(auto)]

mod answers;
mod item;
mod laws;
mod opening;
mod putting;
mod seats;
mod taking;
mod threads;
mod waiting;

pub use answers::{ItemLeft, ItemPolled, ItemTaking};
pub use item::Item;
pub use laws::items_get_the_last_put;
pub use opening::{ValuePass, ValuePool};
