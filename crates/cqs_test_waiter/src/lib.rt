//! Tests of those who wait for a permit, a mutex or an item of a pool: by a future, and by a call
//! that sleeps. Their expected answers were worked out by hand.
#![tactic(auto)]

#[cfg(test)]
mod barriers_that_sleep;
#[cfg(test)]
mod items_of_a_pool;
#[cfg(test)]
mod latches_that_sleep;
#[cfg(test)]
mod locks_by_future;
#[cfg(test)]
mod locks_that_sleep;
#[cfg(test)]
mod permits_by_future;
#[cfg(test)]
mod sleepers;
