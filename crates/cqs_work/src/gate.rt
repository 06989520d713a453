//! The gate that each call of a worker goes through.

ghost use Rattle.std.specs.Prelude.{◌≡◌, ℕ, Bool, true};

use std::sync::Wait;
use std::thread::Threads;

/// What is told before and after each call that a worker makes of its floor. The calls of a worker
/// are numbered from 1; past 2^32 - 1 the number stands still. A gate may hold a worker up, and
/// changes no answer.
///
/// That `before` was told of a call is what `begun` says, and that `after` was, `ended`. Over any
/// gate nothing else gives these, so who has them has told. A gate itself may leave them out.
pub trait Gate {
    ghost begun: { Self → ℕ → ℕ → Bool } = { λ _ _ _. true };

    ghost ended: { Self → ℕ → ℕ → Bool } = { λ _ _ _. true };

    fn before<R: Threads + Wait>(&self, rt: &R, worker: u32, call: u32)
        ensures { begun self.now worker call ≡ true };

    fn after<R: Threads + Wait>(&self, rt: &R, worker: u32, call: u32)
        ensures { ended self.now worker call ≡ true };
}

/// A gate that does nothing.
pub struct OpenGate;

impl Gate for OpenGate {
    fn before<R: Threads + Wait>(&self, _rt: &R, _worker: u32, _call: u32) {}

    fn after<R: Threads + Wait>(&self, _rt: &R, _worker: u32, _call: u32) {}
}
