//! Times the judge of histories on one that is made in memory: so many callers take the permits
//! and as many wait in line; then all permits are given back, and each who waits is served and
//! looks. A text of so many entries is longer than the program reads.
//!
//! It prints one line: `check`, its nanoseconds, the entries, and how many permits are held then.

use crate::words::{Service, service_of, usage};
use cqs_check::{Checked, check_history};
use cqs_core::Entry;
use std::alloc::{AllocError, Global};
use std::env::Args;
use std::process::ExitCode;
use std::rt::Clock;
use std::time::Instant;

/// So many entries tell of one caller who waits, and of the permit that comes.
const EACH: u32 = 6;

/// The most permits that a semaphore may have.
const MOST: u32 = 1 << 20;

/// The history in which so many callers wait, and are served so.
fn history(alloc: Global, callers: u32, service: Service) -> Result<Vec<Entry>, AllocError> {
    let mut entries = Vec::new(alloc);
    for _ in 0..callers {
        entries.push(Entry::TakeNow { pass: 0 })?;
    }
    for wait in 0..callers {
        let wait = u64::from(wait);
        entries.push(Entry::TakeDoor { pass: 1 })?;
        entries.push(Entry::Enter { pass: 1, wait })?;
    }
    for _ in 0..callers {
        entries.push(Entry::GiveSent { pass: 0 })?;
    }
    for place in 0..callers {
        let wait = u64::from(match service {
            Service::First => place,
            Service::Last => callers - 1 - place,
        });
        entries.push(Entry::Deliver { wait })?;
        entries.push(Entry::LookGranted { pass: 1, wait })?;
    }
    Ok(entries)
}

/// Times the judge on such a history of at most so many entries.
fn time_check(
    rt: &(impl Clock + Print + AllocGlobal),
    service: Service,
    most: u32,
) -> anyhow::Result<()> {
    let callers = (most / EACH).min(MOST);
    let entries = history(rt.alloc(), callers, service)?;
    let count = entries.len();
    if count >= 4_294_967_296 {
        anyhow::bail!("too many entries");
    }
    let start = Instant::now(rt)?;
    let checked = check_history(rt.alloc(), callers, entries.as_slice());
    let nanoseconds = start.elapsed(rt)?.as_nanos();
    let Ok(Checked::Legal { held, .. }) = checked else {
        anyhow::bail!("the history is legal");
    };
    println!(rt; "check {nanoseconds} entries {count} held {held}")?;
    Ok(())
}

/// Times the judge as these words say.
pub fn measure(rt: &(impl Clock + Print + AllocGlobal), words: Args) -> anyhow::Result<ExitCode> {
    let mut words = words;
    let Some(service) = words.next().and_then(|word| service_of(word.as_str())) else {
        return Ok(usage(rt)?);
    };
    let most = words
        .next()
        .and_then(|text| text.parse().ok())
        .unwrap_or(1_000_000);
    time_check(rt, service, most)?;
    Ok(ExitCode::SUCCESS)
}
