//! A gate that counts one worker's calls.

use cqs_work::Gate;
use std::sync::{Mutex, Wait};
use std::thread::Threads;

/// What was told of the calls.
#[derive(Clone, Copy, Drop)]
struct Calls {
    /// So many were told of after they were made.
    made: u32,
    /// One was told of before it is made, and not after it.
    is_open: bool,
    /// None was told of in any other way.
    are_in_order: bool,
}

/// Whether the only worker's calls are told of one by one, each before it is made and after it, by
/// the next number.
#[derive(Drop)]
pub struct Tally {
    calls: Mutex<Calls>,
}

impl Tally {
    pub fn new() -> Tally {
        Tally {
            calls: Mutex::new(Calls {
                made: 0,
                is_open: false,
                are_in_order: true,
            }),
        }
    }

    /// How many calls were made.
    pub fn made<R: Wait>(&self, rt: &R) -> u32 {
        self.calls.lock(rt).made
    }

    /// Whether each was told of before and after it, by its number.
    pub fn are_in_order<R: Wait>(&self, rt: &R) -> bool {
        let calls = self.calls.lock(rt);
        calls.are_in_order && !calls.is_open
    }
}

impl Gate for Tally {
    fn before<R: Threads + Wait>(&self, rt: &R, worker: u32, call: u32) {
        let mut calls = self.calls.lock(rt);
        if calls.is_open || worker != 0 || call != calls.made.saturating_add(1) {
            calls.are_in_order = false;
        }
        calls.is_open = true;
    }

    fn after<R: Threads + Wait>(&self, rt: &R, worker: u32, call: u32) {
        let mut calls = self.calls.lock(rt);
        if !calls.is_open || worker != 0 || call != calls.made.saturating_add(1) {
            calls.are_in_order = false;
        }
        calls.is_open = false;
        calls.made = calls.made.saturating_add(1);
    }
}
