//! The reader of plans: it reads a plan from the bytes of a TOML document, and names the first
//! fault of bytes that are none.
#![tactic(auto)]

mod reader;

pub use reader::read_plan;
