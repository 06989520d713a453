//! What so many workers answer to a text.

use cqs_limiter::limit_run;
use cqs_limiter_requests::read_requests;
use cqs_limiter_workers::OpenGate;
use std::alloc::Global;
use std::sync::Wait;
use std::thread::Threads;

/// The text that answers these requests; none, where they aren't read or memory runs out.
pub fn answers_of<R: Threads + Wait + Sync>(
    rt: &R,
    alloc: Global,
    text: &[u8],
    workers: u32,
) -> Option<Vec<u8>> {
    if text.len() > 1_048_576 || workers == 0 || workers > 16 {
        return None;
    }
    let requests = read_requests(alloc, text).ok()?;
    let limited = limit_run(rt, alloc, &requests, workers, &OpenGate).ok()?;
    Some(limited.text)
}

/// Whether that is this text.
pub fn is_answered<R: Threads + Wait + Sync>(
    rt: &R,
    alloc: Global,
    text: &str,
    workers: u32,
    wanted: &str,
) -> bool {
    match answers_of(rt, alloc, text.as_bytes(), workers) {
        Some(answers) => answers.as_slice() == wanted.as_bytes(),
        None => false,
    }
}
