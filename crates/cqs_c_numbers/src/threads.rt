//! A primitive is shared between threads. This is shown here, where a field that could not cross
//! would be refused.

use crate::numbered::Numbered;

fn may_share<T: Send + Sync>(_value: &T) {}

#[allow(dead_code)]
fn crosses_threads(numbered: &Numbered) {
    may_share(numbered);
}
