//! What a caller has of a mutex: its value, or a wait for it.

use cqs_rule::Wait;
use cqs_semaphore::Permit;

/// The value of a mutex, and the right to give it back. A guard that is dropped keeps the mutex
/// locked for good.
#[derive(Drop)]
pub struct Guard<T> {
    pub(crate) value: T,
    pub(crate) permit: Permit,
}

impl<T> Guard<T> {
    ghost use Rattle.std.specs.Prelude.{◌≡◌};
    ghost use Rattle.std.specs.Borrow.{sem};
    ghost use Rattle.cqs_mutex.specs.Guards.{value_of, lends_value};

    /// The value.
    pub fn get(&self) -> &T
        ensures { result.now ≡ value_of self.now }
    {
        &self.value
    }

    /// The value, to be changed.
    pub fn get_mut(&mut self) -> &mut T
        ensures* writes_back { sem 𝓛 (lends_value T.row self.entry result) }
        ensures value { result.now ≡ value_of self.old }
    {
        &mut self.value
    }
}

/// A wait for a mutex.
#[derive(Drop)]
pub struct LockWait {
    pub(crate) wait: Wait,
}

impl LockWait {
    ghost use Rattle.std.specs.Prelude.{◌≡◌};
    ghost use Rattle.cqs_rule.specs.Waits.{place_of};
    ghost use Rattle.cqs_mutex.specs.Guards.{wait_in};

    /// The number of the wait.
    pub fn number(&self) -> u64
        ensures { result ≡ (place_of (wait_in self.now)).index }
    {
        self.wait.number()
    }
}
