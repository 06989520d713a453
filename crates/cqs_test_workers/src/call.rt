//! One call of the program.

use cqs_cli_streams::{SureSink, SureSource};
use cqs_cli_top::{Kept, top};
use cqs_work::Gate;
use std::alloc::Global;
use std::sync::Wait;
use std::thread::Threads;

/// The most that a text takes, in bytes.
const ROOM: u32 = 1 << 20;

/// What a call wrote, and its status.
#[derive(Drop)]
pub struct Said {
    pub text: String,
    pub status: u8,
}

/// The words of a line, which stand apart by blanks.
pub fn words_of(alloc: Global, line: &str) -> anyhow::Result<Vec<String>> {
    let mut words = Vec::new(alloc);
    for word in line.split(' ') {
        words.push(String::from_str(alloc, word)?)?;
    }
    Ok(words)
}

/// Makes the call with these words on this input, each call of a worker by way of the gate.
pub fn call_by<R: Threads + Wait + Sync, G: Gate + Sync>(
    rt: &R,
    alloc: Global,
    words: &[String],
    input: &str,
    gate: &G,
) -> anyhow::Result<Said> {
    let Ok(mut source) = SureSource::new(alloc, input.as_bytes(), 4096) else {
        anyhow::bail!("no memory for the input");
    };
    let Ok(mut sink) = SureSink::new(alloc, ROOM) else {
        anyhow::bail!("no memory for the text");
    };
    let mut kept = Kept::Nothing;
    let status = top(rt, alloc, words, &mut source, &mut sink, gate, &mut kept);
    let Some(bytes) = sink.bytes() else {
        anyhow::bail!("there was no room for the text");
    };
    let text = String::from_str(alloc, str::from_utf8(bytes)?)?;
    Ok(Said { text, status })
}
