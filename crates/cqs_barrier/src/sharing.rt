//! Which of the types may go between threads.

use crate::answers::{Leaving, Owing, PartyWait};
use crate::barrier::{Barrier, BarrierPass};
use cqs_rule::Carries;

/// Threads may share a barrier, and a pass goes from one thread to another, with what it waits for
/// or owes. It does nothing: that it compiles shows it.
pub fn threads_may_share_it<T: Carries + Send>() {
    may_be_shared::<Barrier<T>>();
    may_be_sent::<BarrierPass<T>>();
    may_be_sent::<PartyWait>();
    may_be_sent::<Owing>();
    may_be_sent::<Leaving>();
}

fn may_be_shared<T: Send + Sync>() {}

fn may_be_sent<T: Send>() {}
