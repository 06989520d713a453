//! What a line says: a verb and numbers.

ghost use Rattle.std.specs.Prelude.{◌≡◌, IfOk, MatchOption};
ghost use Rattle.cqs_lines.specs.Said.{Said, IsSaid, said, Hears};

use crate::cuts::cut;
use crate::numbers::number;
use std::alloc::{AllocError, Global};

/// A line as it was heard.
#[derive(Drop)]
pub struct Heard<'a> {
    pub verb: &'a [u8],
    pub numbers: Vec<u64>,
}

/// What the line says; none where it says nothing, as its spaces or its numbers are wrong.
pub fn hear<'a>(alloc: Global, line: &'a [u8]) -> Result<Option<Heard<'a>>, AllocError>
    ensures { IfOk result (λ heard. MatchOption heard ((s : Said) → ¬ IsSaid line.now s)
        (λ h. IsSaid line.now (said h.verb.now h.numbers.items))) }
{
    let Some((verb, rest)) = cut(line, b' ') else {
        return Ok(None);
    };
    match hear_numbers(alloc, rest)? {
        Some(numbers) => Ok(Some(Heard { verb, numbers })),
        None => Ok(None),
    }
}

/// The numbers that a text has, with one space between two.
fn hear_numbers(alloc: Global, text: &[u8]) -> Result<Option<Vec<u64>>, AllocError>
    ensures { IfOk result (λ heard. MatchOption heard (Hears text.now None)
        (λ ns. Hears text.now (Some ns.items))) }
{
    let mut numbers = Vec::new(alloc);
    let mut rest = text;
    'words: while let Some((word, after)) = cut(rest, b' ') {
        let Some(number) = number(word) else {
            return Ok(None);
        };
        numbers.push(number)?;
        rest = after;
    }
    let Some(last) = number(rest) else {
        return Ok(None);
    };
    numbers.push(last)?;
    Ok(Some(numbers))
}
