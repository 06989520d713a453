//! Tests of a barrier: two parties, passes that are made and met, parties that withdraw, and what
//! the last one owes.

mod contended;
mod crew;
mod passing;
mod two_parties;
mod withdrawing;
