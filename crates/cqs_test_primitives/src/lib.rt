//! Tests of the primitives beside the semaphore, call by call. Their expected answers were worked
//! out by hand.
#![tactic(auto)]

#[cfg(test)]
mod barriers;
#[cfg(test)]
mod latches;
#[cfg(test)]
mod mutexes;
#[cfg(test)]
mod pools;
#[cfg(test)]
mod rounds;
