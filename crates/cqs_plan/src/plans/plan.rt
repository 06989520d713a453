//! A plan.

use super::job::Jobs;
use super::resource::Resources;

/// What to run: resources, jobs over them, and for how many turns.
#[derive(Drop)]
pub struct Plan {
    /// The version of the plan language.
    pub version: u32,
    pub turns: u32,
    pub resources: Resources,
    pub jobs: Jobs,
}
