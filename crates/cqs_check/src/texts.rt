//! Histories as texts.

ghost use Rattle.std.specs.Prelude.{◌≡◌, ◌∷◌, [], ℕ, ◌<◌, ◌^◌, ◌≤◌, length, codes, IfOk, Err};
ghost use Rattle.std.specs.Str.{bytes_eq};
ghost use Rattle.cqs_check.specs.Histories.{IsHistory, IsFirstBadLine, IsPermitsOf, IsRead, history_text};
ghost use Rattle.cqs_check.specs.declared.texts.History.{History};
ghost use Rattle.cqs_check.specs.declared.texts.HistoryError.TheVariants.{BadLine};

use cqs_core::Entry;
use cqs_lines::{Form, LineError, read_headed};
use cqs_replay::EntryForm;
use std::alloc::Global;

/// A history of a semaphore with so many permits.
#[derive(Drop)]
pub struct History {
    pub permits: u32,
    pub entries: Vec<Entry>,
}

/// Why a text isn't read as a history.
#[derive(Clone, Copy)]
pub enum HistoryError {
    Memory,
    /// This line, counted from 1, is the first that breaks the form.
    BadLine(u32),
}

/// The form of the first line.
struct PermitsForm;

impl Form for PermitsForm {
    type Item = u32;

    ghost use Rattle.cqs_check.specs.Histories.{IsPermits};
    ghost use Rattle.cqs_check.specs.PermitsLaws.{permits_are_a_line};
    ghost use Rattle.cqs_replay.specs.Runs.{permits_say};

    ghost says = { permits_say };

    ghost fits = { λ form permits. IsPermits permits };

    fn item(&self, verb: &[u8], numbers: &[u64]) -> Option<u32> {
        permits_of(verb, numbers)
    }

    ghost clean = { λ form permits fit. permits_are_a_line permits fit };
}

/// The verb of a history's first line.
fn is_semaphore(verb: &[u8]) -> bool
    ensures { result ≡ bytes_eq verb.now (codes "semaphore") }
{
    verb == "semaphore".as_bytes()
}

/// The permits that this number is, where the verb is that of the first line.
fn of_number(verb: &[u8], number: u64) -> Option<u32>
    ensures { IsPermitsOf verb.now (number ∷ []) result }
{
    if number == 0 || number > 1_048_576 {
        return None;
    }
    if is_semaphore(verb) {
        Some(number as u32)
    } else {
        None
    }
}

/// The permits that these words say.
fn permits_of(verb: &[u8], numbers: &[u64]) -> Option<u32>
    ensures { IsPermitsOf verb.now numbers.now result }
{
    match numbers {
        [number] => of_number(verb, *number),
        _ => None,
    }
}

/// The history that a text is.
pub fn read_history(alloc: Global, bytes: &[u8]) -> Result<History, HistoryError>
    requires { length bytes.now < 2 ^ 32 }
    ensures ok { IfOk result (λ h. IsHistory h × (bytes.now ≡ history_text h)) }
    ensures few { IfOk result (λ h. length h.entries.items ≤ length bytes.now) }
    ensures bad { (n : ℕ) → result ≡ Err (BadLine n) → IsFirstBadLine bytes.now n }

    // What was written is read again.
    ensures again { (h : History) → IsHistory h → bytes.now ≡ history_text h → IsRead result h }
{
    match read_headed(alloc, &PermitsForm, &EntryForm, bytes) {
        Ok((permits, entries)) => Ok(History { permits, entries }),
        Err(LineError::Memory) => Err(HistoryError::Memory),
        Err(LineError::Bad(line)) => Err(HistoryError::BadLine(line)),
    }
}
