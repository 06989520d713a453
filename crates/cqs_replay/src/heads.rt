//! The first line of a schedule.

ghost use Rattle.std.specs.Prelude.{◌≡◌, ◌∷◌, ◌++◌, [], ◌≤◌, ◌<◌, IfOk, MatchOption, OnOk};
ghost use Rattle.cqs_replay.specs.Schedules.{IsHead, IsHeadless, IsHeadOf, IsHeard, IsSized, head_text, kind_text};

use crate::words::is;
use cqs_lines::{cut, hear};
use std::alloc::{AllocError, Global};

/// How many permits and passes a core is made with, and whether it is synchronous.
#[derive(Clone, Copy)]
pub struct Head {
    pub permits: u32,
    pub passes: u32,
    pub sync: bool,
}

/// The head of this verb and these two numbers.
fn of_two(verb: &[u8], permits: u64, passes: u64, sync: bool) -> Option<Head>
    ensures { IsHeadOf verb.now (permits ∷ passes ∷ []) sync result }
{
    if permits == 0 || permits > 1_048_576 || passes == 0 || passes > 32 {
        return None;
    }
    if is(verb, "core") {
        Some(Head {
            permits: permits as u32,
            passes: passes as u32,
            sync,
        })
    } else {
        None
    }
}

/// The head of these words.
fn head_of(verb: &[u8], numbers: &[u64], sync: bool) -> Option<Head>
    ensures { IsHeadOf verb.now numbers.now sync result }
{
    match numbers {
        [permits, passes] => of_two(verb, *permits, *passes, sync),
        _ => None,
    }
}

/// The head of such a core whose numbers a line says.
fn sized(alloc: Global, line: &[u8], sync: bool) -> Result<Option<Head>, AllocError>
    ensures { IfOk result (λ heard. IsSized line.now sync heard) }
{
    match hear(alloc, line)? {
        Some(heard) => Ok(head_of(heard.verb, heard.numbers.as_slice(), sync)),
        None => Ok(None),
    }
}

/// The head that a line says.
fn heard_head(alloc: Global, line: &[u8]) -> Result<Option<Head>, AllocError>
    ensures { IfOk result (λ heard. IsHeard line.now heard) }
{
    match line.strip_suffix(b" sync") {
        Some(numbers) => sized(alloc, numbers, true),
        None => sized(alloc, line, false),
    }
}

/// The head of a text, and the lines behind it.
pub fn next_head<'a>(alloc: Global, text: &'a [u8]) -> Result<Option<(Head, &'a [u8])>, AllocError>
    ensures { IfOk result (λ next. MatchOption next (IsHeadless text.now)
        (λ r. IsHead r.0 × (text.now ≡ head_text r.0 r.1.now))) }
{
    let Some((line, after)) = cut(text, b'\n') else {
        return Ok(None);
    };
    match heard_head(alloc, line)? {
        Some(head) => Ok(Some((head, after))),
        None => Ok(None),
    }
}

/// Appends the word behind the numbers of a synchronous core.
pub fn write_kind(text: &mut Vec<u8>, sync: bool) -> Result<(), AllocError>
    ensures { OnOk result (text.new.items ≡ text.old.items ++ kind_text sync) }
{
    if sync {
        text.extend_from_slice(b" sync")?;
    }
    Ok(())
}
