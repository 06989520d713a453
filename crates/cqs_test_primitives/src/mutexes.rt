//! Tests of a mutex: one row of calls, values of three sizes, and when a value is dropped.

mod drops;
mod rows;
mod sizes;
