//! How many parties are at each round, counted beside the barriers.

use std::alloc::{AllocError, Global};
use std::sync::atomic::{AtomicU32, Ordering};

/// A counter for each round.
#[derive(Drop)]
pub struct Arrivals {
    parties: u32,
    at: Vec<AtomicU32>,
}

impl Arrivals {
    /// Of so many parties none has come to any of the rounds.
    pub fn new(alloc: Global, parties: u32, rounds: u32) -> Result<Arrivals, AllocError> {
        let mut at = Vec::new(alloc);
        for _round in 0..rounds {
            let Ok(()) = at.push(AtomicU32::new(0)) else {
                return Err(AllocError);
            };
        }
        Ok(Arrivals { parties, at })
    }

    /// A party is about to arrive.
    pub fn come(&self, round: u32) {
        if let Some(count) = self.at.get(round as usize) {
            count.fetch_add(1, Ordering::SeqCst);
        }
    }

    /// A party has withdrawn.
    pub fn leave(&self, round: u32) {
        if let Some(count) = self.at.get(round as usize) {
            count.fetch_sub(1, Ordering::SeqCst);
        }
    }

    /// Whether all parties have come.
    pub fn all_came(&self, round: u32) -> bool {
        match self.at.get(round as usize) {
            Some(count) => count.load(Ordering::SeqCst) == self.parties,
            None => false,
        }
    }
}
