//! The requests of a text.

use crate::asks::Line;
use std::alloc::{AllocError, AllocFailed};

/// The most lines that a text of requests may have. A semaphore's queue has a cell for each wait
/// that is ever made, and one cell more than waits; so a tenant's lines are fewer than its cells.
pub const MOST_LINES: usize = 1_048_575;

/// What clients of tenants ask, line by line.
#[derive(Drop)]
pub struct Requests {
    /// The permits of each tenant, by its place.
    pub permits: Vec<u32>,
    pub asks: Vec<Line>,
}

/// Why a text isn't read as requests.
#[derive(Clone, Copy)]
pub enum RequestError {
    Memory,
    /// This line, counted from 1, is the first that breaks the form.
    BadLine(u32),
}

impl From<AllocError> for RequestError {
    ghost use Rattle.std.specs.Prelude.{◌≡◌};
    ghost use Rattle.cqs_limiter_requests.specs.declared.requests.RequestError.TheVariants.{Memory};

    ghost from_gives = { λ _ e. e ≡ Memory };

    fn from(_error: AllocError) -> Self {
        RequestError::Memory
    }
}

impl<T: Drop> From<AllocFailed<T>> for RequestError {
    ghost use Rattle.std.specs.Prelude.{◌≡◌};
    ghost use Rattle.cqs_limiter_requests.specs.declared.requests.RequestError.TheVariants.{Memory};

    ghost from_gives = { λ _ e. e ≡ Memory };

    fn from(_error: AllocFailed<T>) -> Self {
        RequestError::Memory
    }
}
