//! The turn machine, which runs a plan and writes its report.
//!
//! In each turn the jobs act in order. A job makes its steps until it works, must wait or has
//! ended, and each event is one line of the report. After the last turn come a line for each
//! resource and the totals. What a job does with a resource is a call of the floor.
#![tactic(auto)]

mod acts;
mod runs;
mod turns;

pub use cqs_turns_report::{Actor, End, JobState, Patience, Progress, Report};
pub use runs::{run_plan, summarize_plan};
