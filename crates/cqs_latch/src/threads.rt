//! A latch is shared between threads, and a pass is handed from one to another. This is shown here,
//! where a field that could not cross would be refused.

use crate::answers::Owed;
use crate::latch::{Latch, LatchPass};
use cqs_rule::{Carries, Wait};

fn may_share<T: Send + Sync>(_value: &T) {}

fn may_send<T: Send>(_value: &T) {}

#[allow(dead_code)]
fn crosses_threads<T: Carries + Send>(
    latch: &Latch<T>,
    pass: &LatchPass<T>,
    wait: &Wait,
    owed: &Owed,
) {
    may_share(latch);
    may_send(pass);
    may_send(wait);
    may_send(owed);
}
