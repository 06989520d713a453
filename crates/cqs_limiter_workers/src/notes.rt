//! The shared list of outcomes.

ghost use Rattle.std.specs.Prelude.{◌≡◌, IfOk, IfErr};
ghost use Rattle.cqs_limiter_workers.specs.Noting.{IsOf, noted_value};

use cqs_limiter_requests::LimitOutcome;
use std::alloc::{AllocError, Global};
use std::sync::Wait;

/// A list of outcomes that only grows, shared by reference.
#[derive(Drop)]
pub struct Notes {
    list: boxcar::Vec<LimitOutcome>,
}

/// What shows that an outcome stands in a list.
#[derive(Drop)]
pub struct Noted {
    pushed: boxcar::Pushed<LimitOutcome>,
}

impl Noted {
    /// The token once more.
    pub(super) fn again(&self) -> Noted
        ensures { result ≡ self.now }
    {
        Noted {
            pushed: self.pushed.again(),
        }
    }
}

impl Notes {
    pub fn new(alloc: Global) -> Result<Notes, AllocError> {
        Ok(Notes {
            list: boxcar::Vec::new(alloc)?,
        })
    }

    /// Records an outcome. It comes back where memory ran out.
    pub fn put<R: Wait>(&self, rt: &R, outcome: LimitOutcome) -> Result<Noted, LimitOutcome>
        ensures ok { IfOk result (λ noted. IsOf self.now noted × (noted_value noted ≡ outcome)) }
        ensures err { IfErr result (λ back. back ≡ outcome) }
    {
        match self.list.push_shown(rt, outcome) {
            Ok(pushed) => Ok(Noted { pushed }),
            Err(back) => Err(back),
        }
    }

    /// The outcome that was recorded under this token.
    pub fn read(&self, noted: &Noted) -> LimitOutcome
        requires { IsOf self.now noted.now }
        ensures { result ≡ noted_value noted.now }
    {
        *self.list.value(&noted.pushed)
    }
}
