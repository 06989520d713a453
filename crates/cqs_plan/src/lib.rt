//! Plans, and the floors that carry them out.
//!
//! A plan names resources and jobs. Each job takes, holds and gives resources, step by step, over a
//! number of turns. `plans` has the types, one a file; `cqs_plan_reader` reads a plan from bytes,
//! and `fault_line` writes the line about bytes that are none.
//!
//! A `Floor` is what carries out the steps of a plan's jobs: what a job does with a resource is a
//! call of the floor.
#![tactic(auto)]

mod floors;
mod lines;
mod plans;

pub use cqs_core::Memory;
pub use floors::answers::{FloorDown, FloorEnd, FloorGive, FloorLeave, FloorLook, FloorTake};
pub use floors::floor::Floor;
pub use lines::fault_line;
pub use plans::error::PlanError;
pub use plans::fault_kind::FaultKind;
pub use plans::job::{Job, Jobs};
pub use plans::kind::Kind;
pub use plans::name::Name;
pub use plans::plan::Plan;
pub use plans::resource::{Resource, Resources};
pub use plans::step::{Step, Steps};
