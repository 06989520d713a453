//! A synchronous semaphore is shared between threads, and what its calls answer is handed from one
//! to another. This is shown here, where a field that could not cross would be refused.

use crate::answers::{SyncAcquired, SyncLeft, SyncReleased, Under};
use crate::sync_semaphore::SyncSemaphore;
use cqs_rule::Carries;

fn may_share<T: Send + Sync>(_value: &T) {}

fn may_send<T: Send>(_value: &T) {}

#[allow(dead_code)]
fn crosses_threads<T: Carries + Send>(
    semaphore: &SyncSemaphore<T>,
    acquired: &SyncAcquired,
    released: &SyncReleased,
    left: &SyncLeft,
    under: &Under,
) {
    may_share(semaphore);
    may_send(acquired);
    may_send(released);
    may_send(left);
    may_send(under);
}
