//! A caller who names passes and waits by numbers: what every such caller has, and the callers of a
//! semaphore and of a pool.
//!
//! A caller has a pass and the tokens of its waits, and finds the token of a number by itself. What
//! the contracts of the primitive ask of a caller is tested here, and refused by an answer that
//! changes nothing.
#![tactic(auto)]

mod answers;
mod places;
mod pool_caller;
mod semaphore_caller;
mod tokens;
mod verb;

pub use answers::Answer;
pub use places::find;
pub use pool_caller::PoolCaller;
pub use semaphore_caller::SemaphoreCaller;
pub use tokens::{Token, take_out};
pub use verb::Verb;
