//! The types of a plan.

pub mod error;
pub mod fault_kind;
pub mod job;
pub mod kind;
pub mod name;
pub mod plan;
pub mod resource;
pub mod step;
