//! How many callers sleep at the cells of a queue, or are about to: where none does, nobody need be
//! woken.

use crossbeam_utils::CachePadded;
use std::sync::atomic::{AtomicU64, Ordering};

/// The number of those who sleep. It has its cache lines for itself, since it changes beside words
/// that every step reads.
#[derive(Drop)]
pub(super) struct Parked {
    count: CachePadded<AtomicU64>,
}

impl Parked {
    pub(super) fn new() -> Parked {
        Parked {
            count: CachePadded::new(AtomicU64::new(0)),
        }
    }

    // One is about to sleep. It counts itself before the kernel compares the cell, and who changes
    // the cell looks at the count after that: so one of the two sees what the other did.
    pub(super) fn enter(&self) {
        self.count.fetch_add(1, Ordering::SeqCst);
    }

    // One sleeps no more.
    pub(super) fn leave(&self) {
        self.count.fetch_sub(1, Ordering::SeqCst);
    }

    // Whether anybody sleeps, or is about to.
    pub(super) fn any(&self) -> bool {
        self.count.load(Ordering::SeqCst) > 0
    }
}
