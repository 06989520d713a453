//! One case: what the program is run on.

use crate::floors::{Compared, compare};
use cqs_cli::{DONE, Kept, top_alone};
use cqs_cli_streams::{BytesSink, BytesSource};
use std::alloc::{AllocError, Global};

/// What the lines of a table have set so far.
#[derive(Drop)]
pub struct Case {
    pub words: Vec<String>,
    /// The input, in which `@` stands for a value.
    pub input: Vec<u8>,
    /// No more of the input is tried.
    pub first: usize,
    pub chunk: u32,
    pub room: u32,
    /// The number of the call of the source that fails, from 1 on.
    pub read: u32,
    /// The number of the call of the sink that fails, from 1 on.
    pub write: u32,
    /// What must be written.
    pub text: Vec<u8>,
}

impl Case {
    /// The command `run` on an input of no bytes, over streams that don't fail.
    pub fn new(alloc: Global) -> Result<Case, AllocError> {
        Ok(Case {
            words: vec![in alloc; String::from_str(alloc, "run")?]?,
            input: Vec::new(alloc),
            first: usize::MAX,
            chunk: 4096,
            room: 65_536,
            read: 0,
            write: 0,
            text: Vec::new(alloc),
        })
    }

    /// Runs the program with this value in the place of `@`, and tells whether it ends with this
    /// status, having written as many bytes of the text. A plan is run on both floors, too.
    pub fn ends(
        &self,
        alloc: Global,
        value: &[u8],
        status: u8,
        most: usize,
    ) -> anyhow::Result<bool> {
        anyhow::ensure!(self.chunk > 0, "no bytes at a time");
        let mut input = with_value(alloc, &self.input, value)?;
        input.truncate(self.first);
        let mut text = with_value(alloc, &self.text, value)?;
        text.truncate(most);
        let Ok(mut source) = BytesSource::new(alloc, &input, self.chunk, &[self.read]) else {
            anyhow::bail!("no memory for the source");
        };
        let Ok(mut sink) = BytesSink::new(alloc, self.room, self.chunk, &[self.write]) else {
            anyhow::bail!("no memory for the sink");
        };
        let mut kept = Kept::Nothing;
        let ended = top_alone(alloc, &self.words, &mut source, &mut sink, &mut kept);
        let right = ended == status && sink.bytes() == text.as_slice();
        let has_report = status == DONE && self.asks_for_input();
        Ok(right && (!has_report || is_same_on_both(alloc, &input, &text)))
    }

    /// Whether the words are those of the command that reads a plan.
    fn asks_for_input(&self) -> bool {
        matches!(self.words.as_slice(), [word] if word.as_str() == "run")
    }
}

/// Whether the bytes are a plan whose report on each of the floors is this text.
fn is_same_on_both(alloc: Global, bytes: &[u8], text: &[u8]) -> bool {
    match compare(alloc, bytes) {
        Ok(Compared::Same(report)) => report.text() == text,
        Ok(Compared::NoPlan) | Ok(Compared::Different) | Err(_) => false,
    }
}

/// The bytes with the value in the place of each `@`.
pub fn with_value(alloc: Global, bytes: &[u8], value: &[u8]) -> Result<Vec<u8>, AllocError> {
    let mut filled = Vec::new(alloc);
    for byte in bytes {
        if *byte == b'@' {
            filled.extend_from_slice(value)?;
        } else {
            filled.push(*byte)?;
        }
    }
    Ok(filled)
}
