//! A pool of values is shared between threads, and what a caller has of it may be sent from one to
//! another.

use crate::item::Item;
use crate::opening::{ValuePass, ValuePool};
use cqs_rule::Wait;

fn may_share<T: Send + Sync>(_value: &T) {}

fn may_send<T: Send>(_value: &T) {}

#[allow(dead_code)]
fn crosses_threads<T: Send + Drop>(
    pool: &ValuePool<T>,
    pass: &ValuePass<T>,
    item: &Item<T>,
    wait: &Wait,
) {
    may_share(pool);
    may_send(pass);
    may_send(item);
    may_send(wait);
}
