//! Where among the waits of a pass that of a number stands.

ghost use Rattle.std.specs.Prelude.{◌≡◌, ◌≢◌, ◌<◌, All, IfSome, None, length, slice_get, Some};
ghost use Rattle.cqs_c_callers.specs.Waits.{IsAt};

use cqs_rule::Place;

/// Where the wait of this number stands, if it does.
pub fn find(waits: &[Place], number: u64) -> Option<usize>
    ensures found { IfSome result (λ i. IsAt number waits.now i) }
    ensures none { result ≡ None → All (λ at. at.index ≢ number) waits.now }
{
    for i in 0..waits.len() {
        if waits[i].index == number {
            return Some(i);
        }
    }
    None
}
