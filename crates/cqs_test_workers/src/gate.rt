//! A gate that keeps two workers beside each other.

use cqs_work::Gate;
use std::sync::{Mutex, Wait};
use std::thread::{self, Threads};

/// So often a worker that is held looks whether it may go on; then it goes on in any case.
const LOOKS: u32 = 1_000_000;

/// What the two workers came to.
#[derive(Clone, Copy, Drop)]
struct Flags {
    /// The first worker is about to make its first call.
    begun: bool,
    /// The second worker's second call was answered.
    served: bool,
    /// A worker that was held looked as often as it may.
    in_vain: bool,
}

/// The first worker is held before its first call until the second one's second call was answered,
/// and the second one before its first until the first is there. So a thread that runs the workers
/// one after the other looks in vain, whichever of them it takes first.
#[derive(Drop)]
pub struct Meeting {
    flags: Mutex<Flags>,
}

impl Meeting {
    pub fn new() -> Meeting {
        Meeting {
            flags: Mutex::new(Flags {
                begun: false,
                served: false,
                in_vain: false,
            }),
        }
    }

    /// Whether the first worker came to its first call.
    pub fn was_begun<R: Wait>(&self, rt: &R) -> bool {
        self.flags.lock(rt).begun
    }

    /// Whether the second worker's second call was answered.
    pub fn was_served<R: Wait>(&self, rt: &R) -> bool {
        self.flags.lock(rt).served
    }

    /// Whether a worker looked as often as it may.
    pub fn was_in_vain<R: Wait>(&self, rt: &R) -> bool {
        self.flags.lock(rt).in_vain
    }

    fn begin<R: Wait>(&self, rt: &R) {
        self.flags.lock(rt).begun = true;
    }

    fn serve<R: Wait>(&self, rt: &R) {
        self.flags.lock(rt).served = true;
    }

    fn hold_until_begun<R: Wait>(&self, rt: &R) {
        for _look in 0..LOOKS {
            if self.was_begun(rt) {
                return;
            }
            thread::yield_now();
        }
        self.give_up(rt);
    }

    fn hold_until_served<R: Wait>(&self, rt: &R) {
        for _look in 0..LOOKS {
            if self.was_served(rt) {
                return;
            }
            thread::yield_now();
        }
        self.give_up(rt);
    }

    fn give_up<R: Wait>(&self, rt: &R) {
        self.flags.lock(rt).in_vain = true;
    }
}

impl Gate for Meeting {
    fn before<R: Threads + Wait>(&self, rt: &R, worker: u32, call: u32) {
        match (worker, call) {
            (0, 1) => {
                self.begin(rt);
                self.hold_until_served(rt);
            }
            (1, 1) => self.hold_until_begun(rt),
            _ => {}
        }
    }

    fn after<R: Threads + Wait>(&self, rt: &R, worker: u32, call: u32) {
        if (worker, call) == (1, 2) {
            self.serve(rt);
        }
    }
}
