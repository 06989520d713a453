//! A queue is shared between threads, and a pass is handed from one to another. This is shown here,
//! where a field that could not cross would be refused.

use crate::callbacks::Client;
use crate::queue::{Pass, Queue, Under, Wait};

fn may_share<T: Send + Sync>(_value: &T) {}

fn may_send<T: Send>(_value: &T) {}

#[allow(dead_code)]
fn crosses_threads<C: Client>(queue: &Queue<C>, pass: &Pass<C>, wait: &Wait, under: &Under) {
    may_share(queue);
    may_send(pass);
    may_send(wait);
    may_send(under);
}
