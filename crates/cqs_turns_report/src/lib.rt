//! The report of a plan: how far each job is, what one line tells, and its text.
//!
//! An `Actor` is the job whose turn it is: it tells the report what became of a call of the floor.
//! Which report a plan has is said in `specs`, by the turn machine as a definition; the machine
//! that runs is in `cqs_turns`.
#![tactic(auto)]

mod actors;
mod lines;
mod reports;
mod states;
mod texts;

pub use actors::{
    Actor, told_of_arrival, told_of_down, told_of_give, told_of_leave, told_of_take, told_of_wait,
};
pub use lines::Told;
pub use reports::Report;
pub use states::{End, JobState, Patience, Progress};
