//! Requests, read from their text.

ghost use Rattle.std.specs.Prelude.{◌≡◌, ◌≢◌, ℕ, List, ◌<◌, ◌≤◌, ◌^◌, All, length, map, IfOk, MatchOption, Err};
ghost use Rattle.cqs_limiter_requests.specs.Lines.{ArePermits, IsPermits, permits_say};
ghost use Rattle.cqs_limiter_requests.specs.Requests.{AreRequests, IsFirstBadLine, IsValid, requests_text};
ghost use Rattle.cqs_limiter_requests.specs.declared.requests.RequestError.TheVariants.{BadLine};
ghost use Rattle.cqs_lines.specs.Said.{said, said_text};

use crate::requests::{RequestError, Requests};
use crate::verbs::{LineForm, is};
use cqs_lines::{LineError, cut, hear, read_items};
use std::alloc::{AllocError, Global};

/// The numbers as permits, where each is in its range.
fn permits_in(alloc: Global, numbers: &[u64]) -> Result<Option<Vec<u32>>, AllocError>
    ensures { IfOk result (λ found. MatchOption found (¬ All IsPermits numbers.now)
        (λ permits. (permits.items ≡ numbers.now) × All IsPermits permits.items)) }
{
    let mut permits = Vec::new(alloc);
    for number in numbers {
        if *number == 0 || *number > 1_048_576 {
            return Ok(None);
        }
        permits.push(*number as u32)?;
    }
    Ok(Some(permits))
}

/// The permits of the tenants, where these words say them.
fn permits_said(alloc: Global, verb: &[u8], numbers: &[u64]) -> Result<Option<Vec<u32>>, AllocError>
    requires { 0 < length numbers.now }
    ensures { IfOk result (λ found. MatchOption found
        ((permits : List ℕ) → ArePermits permits → permits_say permits ≢ said verb.now numbers.now)
        (λ permits. ArePermits permits.items
        × (permits_say permits.items ≡ said verb.now numbers.now))) }
{
    if !is(verb, "tenants") || numbers.len() > 64 {
        return Ok(None);
    }
    permits_in(alloc, numbers)
}

/// The permits of the tenants, where the line says them.
fn permits_of(alloc: Global, line: &[u8]) -> Result<Option<Vec<u32>>, AllocError>
    ensures { IfOk result (λ found. MatchOption found
        ((permits : List ℕ) → ArePermits permits → line.now ≢ said_text (permits_say permits))
        (λ permits. ArePermits permits.items
        × (line.now ≡ said_text (permits_say permits.items)))) }
{
    let Some(heard) = hear(alloc, line)? else {
        return Ok(None);
    };
    permits_said(alloc, heard.verb, heard.numbers.as_slice())
}

/// The requests that a text is.
pub fn read_requests(alloc: Global, bytes: &[u8]) -> Result<Requests, RequestError>
    requires { length bytes.now < 2 ^ 32 }
    ensures ok { IfOk result (λ r. AreRequests r × (bytes.now ≡ requests_text r)) }
    ensures valid { length bytes.now ≤ 1048576 → IfOk result IsValid }
    ensures bad { (n : ℕ) → result ≡ Err (BadLine n) → IsFirstBadLine bytes.now n }
{
    let Some((line, rest)) = cut(bytes, b'\n') else {
        return Err(RequestError::BadLine(1));
    };
    let Some(permits) = permits_of(alloc, line)? else {
        return Err(RequestError::BadLine(1));
    };
    let form = LineForm {
        tenants: permits.len() as u32,
    };
    match read_items(alloc, &form, rest, 2) {
        Ok(asks) => Ok(Requests { permits, asks }),
        Err(LineError::Memory) => Err(RequestError::Memory),
        Err(LineError::Bad(line)) => Err(RequestError::BadLine(line)),
    }
}
