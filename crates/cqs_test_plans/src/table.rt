//! A file of cases, read line by line.

use crate::case::{Case, with_value};
use std::alloc::{AllocError, Global};

/// What the lines belong to that tell nothing to do.
#[derive(Clone, Copy)]
enum Part {
    Input,
    Values,
    Text,
}

/// A table of cases, as far as it was read.
#[derive(Drop)]
pub struct Table {
    alloc: Global,
    part: Part,
    case: Case,
    values: Vec<Vec<u8>>,
    line: u64,
    cases: u64,
    failed: u64,
}

impl Table {
    pub fn new(alloc: Global) -> Result<Table, AllocError> {
        Ok(Table {
            alloc,
            part: Part::Input,
            case: Case::new(alloc)?,
            values: Vec::new(alloc),
            line: 0,
            cases: 0,
            failed: 0,
        })
    }

    /// The number of the line that was read last, from 1 on.
    pub fn line(&self) -> u64 {
        self.line
    }

    /// How many cases were run.
    pub fn cases(&self) -> u64 {
        self.cases
    }

    /// How many of them didn't end as they should.
    pub fn failures(&self) -> u64 {
        self.failed
    }

    /// Reads one line, and runs the cases that it asks for. Answers whether
    /// they end as they should.
    pub fn read(&mut self, line: &str) -> anyhow::Result<bool> {
        self.line = self.line.saturating_add(1);
        if line.starts_with("=== ") {
            return Ok(true);
        }
        let Some(order) = line.strip_prefix("== ") else {
            self.add_line(line)?;
            return Ok(true);
        };
        let (verb, rest) = order.split_once(' ').unwrap_or((order, ""));
        match verb {
            "ends" => self.run(rest),
            "fault" => {
                let line = format!(in self.alloc; "bad plan: {rest}\n")?;
                self.case.text = Vec::from_slice(self.alloc, line.as_bytes())?;
                self.run("3")
            }
            _ => {
                self.set(verb, rest)?;
                Ok(true)
            }
        }
    }

    /// Adds a line to the part that it belongs to.
    fn add_line(&mut self, line: &str) -> Result<(), AllocError> {
        match self.part {
            Part::Input => {
                self.case.input.extend_from_slice(line.as_bytes())?;
                self.case.input.push(b'\n')?;
            }
            Part::Values => {
                let value = with_line_ends(self.alloc, line)?;
                self.values.push(value)?;
            }
            Part::Text => {
                self.case.text.extend_from_slice(line.as_bytes())?;
                self.case.text.push(b'\n')?;
            }
        }
        Ok(())
    }

    /// Sets what the cases that follow are run on.
    fn set(&mut self, verb: &str, rest: &str) -> anyhow::Result<()> {
        match verb {
            "plan" => {
                self.case = Case::new(self.alloc)?;
                self.values = Vec::new(self.alloc);
                self.part = Part::Input;
            }
            "each" => self.add_each(rest)?,
            "fill" => self.fill(rest)?,
            "with" => {
                self.values = Vec::new(self.alloc);
                self.part = Part::Values;
            }
            "byte" => {
                let byte = vec![in self.alloc; rest.parse::<u8>()?]?;
                self.values = vec![in self.alloc; byte]?;
            }
            "first" => self.case.first = rest.parse::<usize>()?,
            "words" => self.case.words = words_in(self.alloc, rest)?,
            "chunk" => self.case.chunk = rest.parse::<u32>()?,
            "room" => self.case.room = rest.parse::<u32>()?,
            "read" => self.case.read = rest.parse::<u32>()?,
            "write" => self.case.write = rest.parse::<u32>()?,
            "text" => {
                self.case.text = Vec::new(self.alloc);
                self.part = Part::Text;
            }
            _ => anyhow::bail!("line {}: {verb} is nothing to do", self.line),
        }
        Ok(())
    }

    /// Adds a text to the input for each number of a range, up or down.
    fn add_each(&mut self, rest: &str) -> anyhow::Result<()> {
        let Some((from, rest)) = rest.split_once(' ') else {
            anyhow::bail!("line {}: no range", self.line);
        };
        let Some((to, text)) = rest.split_once(' ') else {
            anyhow::bail!("line {}: no text", self.line);
        };
        let text = with_line_ends(self.alloc, text)?;
        let (from, to) = (from.parse::<u32>()?, to.parse::<u32>()?);
        for step in 0..=from.abs_diff(to) {
            let number = if from <= to {
                from.saturating_add(step)
            } else {
                from.saturating_sub(step)
            };
            let number = format!(in self.alloc; "{number}")?;
            let text = with_value(self.alloc, &text, number.as_bytes())?;
            self.case.input.extend_from_slice(&text)?;
        }
        Ok(())
    }

    /// Adds one sign to the input again and again, up to a length.
    fn fill(&mut self, rest: &str) -> anyhow::Result<()> {
        let Some((length, sign)) = rest.split_once(' ') else {
            anyhow::bail!("line {}: no sign", self.line);
        };
        let signs = with_line_ends(self.alloc, sign)?;
        let [sign] = signs.as_slice() else {
            anyhow::bail!("line {}: not one sign", self.line);
        };
        for _ in self.case.input.len()..length.parse::<usize>()? {
            self.case.input.push(*sign)?;
        }
        Ok(())
    }

    /// Runs the case with each value, or as it stands where there is none.
    fn run(&mut self, rest: &str) -> anyhow::Result<bool> {
        let (status, most) = match rest.split_once(' ') {
            Some((status, most)) => (status.parse::<u8>()?, most.parse::<usize>()?),
            None => (rest.parse::<u8>()?, usize::MAX),
        };
        let mut failed = 0u64;
        if self.values.is_empty() {
            self.cases = self.cases.saturating_add(1);
            if !self.case.ends(self.alloc, b"@", status, most)? {
                failed = 1;
            }
        }
        for value in &self.values {
            self.cases = self.cases.saturating_add(1);
            if !self.case.ends(self.alloc, value, status, most)? {
                failed = failed.saturating_add(1);
            }
        }
        self.failed = self.failed.saturating_add(failed);
        Ok(failed == 0)
    }
}

/// The bytes of a text in which `|` stands for the end of a line.
fn with_line_ends(alloc: Global, text: &str) -> Result<Vec<u8>, AllocError> {
    let mut bytes = Vec::new(alloc);
    for byte in text.as_bytes() {
        bytes.push(if *byte == b'|' { b'\n' } else { *byte })?;
    }
    Ok(bytes)
}

/// The words that stand between quotation marks.
fn words_in(alloc: Global, text: &str) -> Result<Vec<String>, AllocError> {
    let mut words = Vec::new(alloc);
    let mut is_quoted = false;
    for piece in text.split('"') {
        if is_quoted {
            words.push(String::from_str(alloc, piece)?)?;
        }
        is_quoted = !is_quoted;
    }
    Ok(words)
}
