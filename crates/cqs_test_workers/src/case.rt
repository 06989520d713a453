//! A call of the standard input.

use crate::call::{call_by, words_of};
use cqs_work::OpenGate;
use std::alloc::{AllocError, Global};
use std::sync::Wait;
use std::thread::Threads;

/// The words of a call, and what it reads.
#[derive(Drop)]
pub struct Case {
    words: Vec<String>,
    input: String,
}

impl Case {
    /// A call with these words, which stand apart by blanks, on an input of no bytes.
    pub fn new(alloc: Global, line: &str) -> anyhow::Result<Case> {
        let words = words_of(alloc, line)?;
        let input = String::new(alloc);
        Ok(Case { words, input })
    }

    /// The input has this line as well.
    pub fn add(&mut self, line: &str) -> Result<(), AllocError> {
        self.input.push_str(line)?;
        self.input.push('\n')
    }

    /// Makes the call, and prints what it wrote and its status.
    pub fn tell<R: Threads + Wait + Sync + Print + AllocGlobal>(
        &self,
        rt: &R,
    ) -> anyhow::Result<()> {
        let words = self.words.as_slice();
        let said = call_by(rt, rt.alloc(), words, self.input.as_str(), &OpenGate)?;
        print!(rt; "{}", said.text.as_str())?;
        println!(rt; "-- status {}", said.status)?;
        Ok(())
    }
}
