//! Which of the types may go between threads.

use crate::members::{Member, MemberLeaving, MemberOwing, MemberWait};
use crate::rounds::{Rounds, RoundsPass};

/// Threads may share the rounds, and a pass goes from one thread to another, as does a member and
/// what it waits for or owes. It does nothing: that it compiles shows it.
pub fn threads_may_share_them() {
    may_be_shared::<Rounds>();
    may_be_sent::<RoundsPass>();
    may_be_sent::<Member>();
    may_be_sent::<MemberWait>();
    may_be_sent::<MemberOwing>();
    may_be_sent::<MemberLeaving>();
}

fn may_be_shared<T: Send + Sync>() {}

fn may_be_sent<T: Send>() {}
