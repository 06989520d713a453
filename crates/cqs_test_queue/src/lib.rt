//! Tests that cross crates: calls of the core and of the running queue, and packed words. Their
//! expected values were worked out by hand.
#![tactic(auto)]

#[cfg(test)]
mod core_calls;
#[cfg(test)]
mod jumps;
#[cfg(test)]
mod line;
#[cfg(test)]
mod links;
#[cfg(test)]
mod packed_words;
#[cfg(test)]
mod queue_calls;
#[cfg(test)]
mod seats;
#[cfg(test)]
mod segments;
#[cfg(test)]
mod synchronous;
#[cfg(test)]
mod threads;
