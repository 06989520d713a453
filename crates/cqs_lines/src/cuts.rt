//! Cutting bytes at the first of one kind.

ghost use Rattle.std.specs.Prelude.{◌≡◌, MatchOption};
ghost use Rattle.cqs_lines.specs.Said.{IsCut, Lacks};

use memchr::memchr;

/// What stands before the first such byte, and what stands behind it.
pub fn cut(bytes: &[u8], at: u8) -> Option<(&[u8], &[u8])>
    ensures { MatchOption result (Lacks at bytes.now)
        (λ parts. IsCut at bytes.now parts.0.now parts.1.now) }
{
    match memchr(at, bytes) {
        Some(place) => Some((&bytes[..place], &bytes[place + 1..])),
        None => None,
    }
}
