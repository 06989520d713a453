//! What a source of requests comes to.

ghost use Rattle.std.specs.Prelude.{◌≡◌};
ghost use Rattle.cqs_cli_limits.specs.Verdicts.{kept_of};

use cqs_limiter::Limited;

/// What a source comes to, before anything is written.
#[derive(Drop)]
pub enum Verdict {
    /// The input is requests, and workers left this of them.
    Replied(Limited),
    /// The input is no requests, and this line says where.
    BadText(Vec<u8>),
    /// The source failed. Nothing is to be written.
    SourceFailed,
    /// There was no memory. Nothing is to be written.
    NoMemory,
    /// The input is too long. Nothing is to be written.
    TooLong,
}

/// What is kept of it.
pub fn kept_of(verdict: Verdict) -> Option<Limited>
    ensures { result ≡ kept_of verdict }
{
    match verdict {
        Verdict::Replied(limited) => Some(limited),
        _ => None,
    }
}
