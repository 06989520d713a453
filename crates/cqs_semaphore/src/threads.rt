//! A semaphore is shared between threads; passes, and what their calls answer, are handed from one
//! to another. This is shown here, where a field that could not cross would be refused.

use crate::answers::{Acquired, CancelAnswer, Permit, Polled, Released};
use crate::semaphore::{SemPass, Semaphore};
use cqs_rule::Carries;

fn may_share<T: Send + Sync>(_value: &T) {}

fn may_send<T: Send>(_value: &T) {}

#[allow(dead_code)]
fn crosses_threads<T: Carries + Send>(
    semaphore: &Semaphore<T>,
    pass: &SemPass<T>,
    permit: &Permit,
) {
    may_share(semaphore);
    may_send(pass);
    may_send(permit);
}

#[allow(dead_code)]
fn answers_cross_threads(
    acquired: &Acquired,
    polled: &Polled,
    released: &Released,
    cancelled: &CancelAnswer,
) {
    may_send(acquired);
    may_send(polled);
    may_send(released);
    may_send(cancelled);
}
