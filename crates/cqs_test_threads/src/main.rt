//! Threads work on a mutex, on a pool, on a latch and on rounds of a barrier, one primitive after
//! the other. What is printed is the same whatever the schedule.
#![tactic(auto)]

mod latches;
mod mutexes;
mod pools;
mod rounds;

use crate::latches::run_latches;
use crate::mutexes::run_mutexes;
use crate::pools::run_pools;
use crate::rounds::run_rounds;

fn main(rt: HostRuntime) -> anyhow::Result<()> {
    run_mutexes(&rt)?;
    run_pools(&rt)?;
    run_latches(&rt)?;
    run_rounds(&rt)
}
