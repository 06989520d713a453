//! A gate that stalls one worker in the middle of its turn while the others go on.

use cqs_work::Gate;
use std::sync::{Mutex, Wait};
use std::thread::{self, Threads};

/// So often a worker that is held looks whether it may go on; then it goes on in any case.
const LOOKS: u32 = 1_000_000;

/// How many workers there are beside the one that is stalled.
const OTHERS: u32 = 3;

/// What the workers came to.
#[derive(Clone, Copy, Drop)]
struct Flags {
    /// The first worker has what it is to be stalled with.
    has_taken: bool,
    /// So many of the others made their last call.
    ended: u32,
    /// A worker that was held looked as often as it may.
    in_vain: bool,
}

/// The first worker is held before its second call, with what its first one took, until each of the
/// others has made its last; and these are held before their first until it has taken.
#[derive(Drop)]
pub struct Stall {
    flags: Mutex<Flags>,
}

/// The number of the last call of a worker that isn't stalled: the second one's job takes, looks in
/// vain in two turns and gives up; those of the others take and give back.
fn last_call(worker: u32) -> u32 {
    if worker == 1 { 4 } else { 2 }
}

impl Stall {
    pub fn new() -> Stall {
        Stall {
            flags: Mutex::new(Flags {
                has_taken: false,
                ended: 0,
                in_vain: false,
            }),
        }
    }

    /// How many of the other workers made their last call before the first one went on.
    pub fn ended<R: Wait>(&self, rt: &R) -> u32 {
        self.flags.lock(rt).ended
    }

    /// Whether a worker looked as often as it may.
    pub fn was_in_vain<R: Wait>(&self, rt: &R) -> bool {
        self.flags.lock(rt).in_vain
    }

    /// Whether the first worker has taken, or somebody was held in vain: then nobody need be.
    fn may_begin<R: Wait>(&self, rt: &R) -> bool {
        let flags = *self.flags.lock(rt);
        flags.has_taken || flags.in_vain
    }

    fn hold_until_taken<R: Wait>(&self, rt: &R) {
        for _look in 0..LOOKS {
            if self.may_begin(rt) {
                return;
            }
            thread::yield_now();
        }
        self.give_up(rt);
    }

    fn hold_until_all_ended<R: Wait>(&self, rt: &R) {
        for _look in 0..LOOKS {
            if self.ended(rt) == OTHERS {
                return;
            }
            thread::yield_now();
        }
        self.give_up(rt);
    }

    fn give_up<R: Wait>(&self, rt: &R) {
        self.flags.lock(rt).in_vain = true;
    }

    fn take<R: Wait>(&self, rt: &R) {
        self.flags.lock(rt).has_taken = true;
    }

    fn end<R: Wait>(&self, rt: &R) {
        let mut flags = self.flags.lock(rt);
        flags.ended = flags.ended.saturating_add(1);
    }
}

impl Gate for Stall {
    fn before<R: Threads + Wait>(&self, rt: &R, worker: u32, call: u32) {
        match (worker, call) {
            (0, 2) => self.hold_until_all_ended(rt),
            (1.., 1) => self.hold_until_taken(rt),
            _ => {}
        }
    }

    fn after<R: Threads + Wait>(&self, rt: &R, worker: u32, call: u32) {
        if worker == 0 && call == 1 {
            self.take(rt);
        } else if worker > 0 && call == last_call(worker) {
            self.end(rt);
        }
    }
}
