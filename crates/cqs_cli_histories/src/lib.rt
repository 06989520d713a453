//! What the commands `replay`, `history` and `check` make of an input: a text, or a line that says
//! where the input is wrong. It knows neither source nor sink.
#![tactic(auto)]

mod histories;
mod schedules;
mod studies;
mod wrong_lines;

pub use studies::{Studied, Study, study_input};
