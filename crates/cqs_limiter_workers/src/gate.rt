//! The gate that each request of a worker goes through.

ghost use Rattle.std.specs.Prelude.{◌≡◌, ℕ, Bool, true};

use std::sync::Wait;
use std::thread::Threads;

/// What is told before and after each request that a worker makes. The requests of a worker are
/// numbered from 1. A gate may hold a worker up, and changes no answer.
///
/// That `before` was told of a request is what `begun` says, and that `after` was, `ended`. Over
/// any gate nothing else gives these, so who has them has told.
pub trait Gate {
    ghost begun: { Self → ℕ → ℕ → Bool } = { λ _ _ _. true };

    ghost ended: { Self → ℕ → ℕ → Bool } = { λ _ _ _. true };

    fn before<R: Threads + Wait>(&self, rt: &R, worker: u32, request: u32)
        ensures { begun self.now worker request ≡ true };

    fn after<R: Threads + Wait>(&self, rt: &R, worker: u32, request: u32)
        ensures { ended self.now worker request ≡ true };
}

/// A gate that does nothing.
pub struct OpenGate;

impl Gate for OpenGate {
    fn before<R: Threads + Wait>(&self, _rt: &R, _worker: u32, _request: u32) {}

    fn after<R: Threads + Wait>(&self, _rt: &R, _worker: u32, _request: u32) {}
}
