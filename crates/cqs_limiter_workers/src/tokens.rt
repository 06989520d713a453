//! The tokens of all workers in the order of the lines, and the text that is read by them.

ghost use Rattle.std.specs.Prelude.{◌≡◌, ◌<◌, ◌+◌, ◌%◌, Some, IfOk, length, map, slice_get};
ghost use Rattle.cqs_limiter_workers.specs.declared.works.Told.{Told};
ghost use Rattle.cqs_limiter_requests.specs.Told.{outcomes_text};
ghost use Rattle.cqs_limiter_workers.specs.Noting.{AreOf, noted_value};
ghost use Rattle.cqs_limiter_workers.specs.Handing.{AreHands, HasInOrder};

use crate::notes::{Noted, Notes};
use crate::works::Told;
use cqs_limiter_requests::{Line, write_outcome};
use std::alloc::{AllocError, Global};

/// One token of one worker, and the place of the next.
fn token_at<T>(hands: &[Told<T>], worker: usize, place: usize) -> (Noted, usize)
    requires worker { worker < length hands.now }
    requires place { (told : Told T) → slice_get hands.now worker ≡ Some told
        → place < length told.tokens.items }
    ensures token { (told : Told T) → slice_get hands.now worker ≡ Some told
        → slice_get told.tokens.items place ≡ Some result.0 }
    ensures next { result.1 ≡ place + 1 }
{
    let tokens = &hands[worker].tokens;
    (tokens[place].again(), place + 1)
}

/// The tokens in the order of the lines: each line's is the next one of its tenant's worker.
pub fn deal_back<T>(
    alloc: Global,
    notes: &Notes,
    lines: &[Line],
    hands: &[Told<T>],
) -> Result<Vec<Noted>, AllocError>
    requires some { 0 < length hands.now }
    requires hands { AreHands notes.now lines.now hands.now }
    ensures { IfOk result (λ tokens. HasInOrder notes.now lines.now hands.now tokens.items) }
{
    let _ = notes;
    let mut next = vec![in alloc; 0usize; hands.len()]?;
    let mut tokens = Vec::new(alloc);
    for line in lines {
        let worker = line.tenant as usize % hands.len();
        let place = next[worker];
        let (token, later) = token_at(hands, worker, place);
        tokens.push(token)?;
        next[worker] = later;
    }
    Ok(tokens)
}

/// The text of all outcomes, each read from the list by its token.
pub fn text_of(alloc: Global, notes: &Notes, tokens: &[Noted]) -> Result<Vec<u8>, AllocError>
    requires { AreOf notes.now tokens.now }
    ensures { IfOk result (λ text. text.items ≡ outcomes_text (map noted_value tokens.now)) }
{
    let mut text = Vec::new(alloc);
    for token in tokens {
        write_outcome(&mut text, notes.read(token))?;
    }
    Ok(text)
}
