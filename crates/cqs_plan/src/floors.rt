//! Floors: what carries out the steps of a plan's jobs.

pub mod answers;
pub mod floor;
