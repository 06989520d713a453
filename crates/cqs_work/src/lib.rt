//! Several workers run one plan, each on a floor of its own over shared resources.
//!
//! `SharedFloor` is what a worker calls: one value for each worker, over resources that all share.
//! A worker makes its turns, then cancels the waits that are left and gives back all that its jobs
//! still hold. Each of its calls goes through a `Gate`. `work_all` runs the workers beside each
//! other, and `meet_all` lets their floors meet in one, which has seen all. `work_plan` does all of
//! this for a plan, and lists the waits at its semaphores.
//!
//! What the other workers do can't be told, so what a worker's floor answers may come in any order
//! of theirs. A worker's jobs are therefore judged by the answers that they had: the turn machine
//! over this list of answers leaves the jobs as they ended.
#![tactic(auto)]

mod acts;
mod clerk;
mod ends;
mod gate;
mod hold;
mod laws;
mod plans;
mod posts;
mod turns;
mod waits;
mod works;

pub use ends::{JobEnd, JobEnds, Totals, totals_of};
pub use gate::{Gate, OpenGate};
pub use hold::HoldGate;
pub use laws::{even_pools_are_quiet, even_semaphores_are_quiet};
pub use plans::{Worked, work_plan};
pub use waits::{WaitLine, WaitLines, Waited};
pub use works::{Post, Worker, meet_all, work_all};
