//! A pool is shared between threads, and what a caller has of it may be sent from one to another.

use crate::element::Element;
use crate::pool::{Pool, PoolPass};
use cqs_rule::{Carries, Wait};

fn may_share<T: Send + Sync>(_value: &T) {}

fn may_send<T: Send>(_value: &T) {}

#[allow(dead_code)]
fn crosses_threads<T: Carries + Send>(
    pool: &Pool<T>,
    pass: &PoolPass<T>,
    element: &Element,
    wait: &Wait,
) {
    may_share(pool);
    may_send(pass);
    may_send(element);
    may_send(wait);
}
