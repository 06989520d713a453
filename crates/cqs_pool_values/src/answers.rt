//! What the calls of a pool of values answer.

use crate::item::Item;
use cqs_rule::{Under, Wait};

/// What became of a take.
#[derive(Drop)]
pub enum ItemTaking<T> {
    /// The caller has an item.
    Took(Item<T>),
    /// The caller waits in line.
    Later(Wait),
}

/// What a look at a wait found.
#[derive(Drop)]
pub enum ItemPolled<T> {
    /// The item came.
    Granted(Item<T>),
    /// The caller still waits.
    Pending(Wait),
}

/// What became of a cancel. It is never refused.
#[derive(Drop)]
pub enum ItemLeft<T> {
    /// The wait is over, and no item came of it. Where an element was on its way to it and is still
    /// to go on, with its value in the slot, `finish` goes on with it.
    Cancelled(Option<Under>),
    /// The item had come before.
    TooLate(Item<T>),
}
