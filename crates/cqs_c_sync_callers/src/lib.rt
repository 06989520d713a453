//! A caller who names passes and waits by numbers: the caller of a synchronous semaphore. What the
//! contracts of the primitive ask of a caller is tested here, and refused by an answer that changes
//! nothing.
#![tactic(auto)]

mod sync_semaphore_caller;

pub use sync_semaphore_caller::SyncSemaphoreCaller;
