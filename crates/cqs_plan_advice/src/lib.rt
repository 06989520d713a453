//! What a person is told of bytes that are no plan, beside the line that names the first fault:
//! where it stands, what stands there, and what would be right.
//!
//! The text is for people, so no clause says which it is; it is proved that it is made safely.
#![tactic(auto)]

mod advice;
mod finder;
mod places;
mod position;
mod quoted;
mod rules;
mod tokens;

pub use advice::advise;
