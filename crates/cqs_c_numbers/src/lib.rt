//! The primitives with passes and waits that are called by number, for callers who can't hold
//! tokens.
//!
//! ```text
//!  pass number --> mark 0: the pass rests here ----> taken for the call, and put back after it
//!                  mark 1: a call has it ----------> InUse
//!                  mark 2: nobody has this number -> NoPass
//! ```
//!
//! The passes lie in the slots of a table, each with its waits and with what it owes. A call takes
//! its pass by one exchange on the pass's mark, makes one call of the primitive with it, and puts
//! it back: no lock, and nobody waits. The callers are those of `cqs_c_callers`,
//! `cqs_c_latch_callers` and `cqs_c_sync_callers`, which refuse what the primitive asks of them by
//! an answer that changes nothing.
#![tactic(auto)]

mod caller;
mod calls;
mod making;
mod marks;
mod numbered;
mod primitive;
mod seats;
mod taking;
mod threads;

pub use caller::Caller;
pub use cqs_c_callers::{Answer, PoolCaller, SemaphoreCaller, Verb};
pub use cqs_c_latch_callers::{BarrierCaller, LatchCaller, PartyOwes};
pub use cqs_c_sync_callers::SyncSemaphoreCaller;
pub use numbered::Numbered;
pub use primitive::Primitive;
