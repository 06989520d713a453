//! The entries as lines.

ghost use Rattle.std.specs.Prelude.{◌≡◌, ◌≢◌, ◌∷◌, ◌++◌, [], List, ℕ, OnOk, ◌<◌};
ghost use Rattle.cqs_lines.specs.Said.{said_text};
ghost use Rattle.cqs_lines.specs.Forms.{lines_text};
ghost use Rattle.cqs_replay.specs.EntryLines.{IsEntryOf, entry_says};

use crate::words::is;
use cqs_core::Entry;
use cqs_lines::{Form, write_said};
use std::alloc::AllocError;

/// The form of an entry's line.
pub struct EntryForm;

impl Form for EntryForm {
    type Item = Entry;

    ghost use Rattle.cqs_replay.specs.EntryLines.{entry_says, IsEntry};
    ghost use Rattle.cqs_replay.specs.EntryLaws.{entry_is_line};

    ghost says = { entry_says };

    ghost fits = { λ form e. IsEntry e };

    fn item(&self, verb: &[u8], numbers: &[u64]) -> Option<Entry> {
        entry_of(verb, numbers)
    }

    ghost clean = { λ form e fit. entry_is_line e fit };
}

/// The entry of this verb and this number.
fn of_pass(verb: &[u8], pass: u32) -> Option<Entry>
    ensures { IsEntryOf verb.now (pass ∷ []) result }
{
    if is(verb, "takenow") {
        Some(Entry::TakeNow { pass })
    } else if is(verb, "takedoor") {
        Some(Entry::TakeDoor { pass })
    } else if is(verb, "trygot") {
        Some(Entry::TryGot { pass })
    } else if is(verb, "trybusy") {
        Some(Entry::TryBusy { pass })
    } else if is(verb, "givefreed") {
        Some(Entry::GiveFreed { pass })
    } else if is(verb, "givesent") {
        Some(Entry::GiveSent { pass })
    } else if is(verb, "deliver") {
        Some(Entry::Deliver {
            wait: u64::from(pass),
        })
    } else {
        None
    }
}

/// The entry of this verb and a number that is no pass.
fn of_far(verb: &[u8], wait: u64) -> Option<Entry>
    requires { 4294967295 < wait }
    ensures { IsEntryOf verb.now (wait ∷ []) result }
{
    if wait >= 1_099_511_627_776 {
        return None;
    }
    if is(verb, "deliver") {
        Some(Entry::Deliver { wait })
    } else {
        None
    }
}

/// The entry of this verb, this pass and this wait.
fn of_wait(verb: &[u8], pass: u32, wait: u64) -> Option<Entry>
    requires { wait < 1099511627776 }
    ensures { IsEntryOf verb.now (pass ∷ wait ∷ []) result }
{
    if is(verb, "enter") {
        Some(Entry::Enter { pass, wait })
    } else if is(verb, "spoil") {
        Some(Entry::Spoil { pass, wait })
    } else if is(verb, "undo") {
        Some(Entry::Undo { pass, wait })
    } else if is(verb, "leave") {
        Some(Entry::Leave { pass, wait })
    } else if is(verb, "late") {
        Some(Entry::Late { pass, wait })
    } else if is(verb, "granted") {
        Some(Entry::LookGranted { pass, wait })
    } else if is(verb, "pending") {
        Some(Entry::LookPending { pass, wait })
    } else {
        None
    }
}

/// The entry of these words.
pub fn entry_of(verb: &[u8], numbers: &[u64]) -> Option<Entry>
    ensures { IsEntryOf verb.now numbers.now result }
{
    match numbers {
        [number] => match u32::try_from(*number) {
            Ok(pass) => of_pass(verb, pass),
            Err(_) => of_far(verb, *number),
        },
        [pass, wait] => {
            if *wait >= 1_099_511_627_776 {
                return None;
            }
            match u32::try_from(*pass) {
                Ok(pass) => of_wait(verb, pass, *wait),
                Err(_) => None,
            }
        }
        _ => None,
    }
}

/// Appends the words of an entry.
fn write_entry(text: &mut Vec<u8>, entry: Entry) -> Result<(), AllocError>
    ensures { OnOk result (text.new.items ≡ text.old.items ++ said_text (entry_says entry)) }
{
    match entry {
        Entry::TakeNow { pass } => write_said(text, b"takenow", &[u64::from(pass)]),
        Entry::TakeDoor { pass } => write_said(text, b"takedoor", &[u64::from(pass)]),
        Entry::Enter { pass, wait } => write_said(text, b"enter", &[u64::from(pass), wait]),
        Entry::TryGot { pass } => write_said(text, b"trygot", &[u64::from(pass)]),
        Entry::TryBusy { pass } => write_said(text, b"trybusy", &[u64::from(pass)]),
        Entry::GiveFreed { pass } => write_said(text, b"givefreed", &[u64::from(pass)]),
        Entry::GiveSent { pass } => write_said(text, b"givesent", &[u64::from(pass)]),
        Entry::Deliver { wait } => write_said(text, b"deliver", &[wait]),
        Entry::Spoil { pass, wait } => write_said(text, b"spoil", &[u64::from(pass), wait]),
        Entry::Undo { pass, wait } => write_said(text, b"undo", &[u64::from(pass), wait]),
        Entry::Leave { pass, wait } => write_said(text, b"leave", &[u64::from(pass), wait]),
        Entry::Late { pass, wait } => write_said(text, b"late", &[u64::from(pass), wait]),
        Entry::LookGranted { pass, wait } => write_said(text, b"granted", &[u64::from(pass), wait]),
        Entry::LookPending { pass, wait } => write_said(text, b"pending", &[u64::from(pass), wait]),
    }
}

/// Appends a line for each entry.
pub fn write_entries(text: &mut Vec<u8>, entries: &[Entry]) -> Result<(), AllocError>
    ensures { OnOk result
        (text.new.items ≡ text.old.items ++ lines_text entry_says entries.now []) }
{
    for entry in entries {
        write_entry(text, *entry)?;
        text.extend_from_slice(b"\n")?;
    }
    Ok(())
}
