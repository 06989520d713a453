//! Tests of a pool and of a pool of values: rows of calls, values of three sizes, and when a value
//! is dropped.

mod calls;
mod drops;
mod elements;
mod rows;
mod sizes;
mod values;
