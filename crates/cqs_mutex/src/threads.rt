//! A mutex is shared between threads, and what a caller has of it may be sent from one to another.

use crate::guard::{Guard, LockWait};
use crate::mutex::{Mutex, MutexPass};

fn may_share<T: Send + Sync>(_value: &T) {}

fn may_send<T: Send>(_value: &T) {}

#[allow(dead_code)]
fn crosses_threads<T: Send + Drop>(
    mutex: &Mutex<T>,
    pass: &MutexPass<T>,
    guard: &Guard<T>,
    wait: &LockWait,
) {
    may_share(mutex);
    may_send(pass);
    may_send(guard);
    may_send(wait);
}
