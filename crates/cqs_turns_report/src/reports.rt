//! The report of a plan, as it grows.

ghost use Rattle.std.specs.Prelude.{◌≡◌, [], ◌++◌, map, OnOk, OnErr};
ghost use Rattle.cqs_turns_report.specs.Lines.{line_text, end_text, total_text};

use crate::lines::Told;
use crate::states::JobState;
use crate::texts::{push_end, push_line, push_total};
use cqs_core::Memory;
use cqs_plan::{FloorEnd, Resource};
use std::alloc::Global;
use std::marker::Model;

/// The report of a plan. Contracts see its text so far. A line is made aside and then added whole,
/// so a line for which there is no memory leaves the text as it was.
#[derive(Drop)]
pub struct Report {
    text: Vec<u8>,
    /// Where the next line is made, kept to spare an allocation for each line.
    line: Vec<u8>,
}

impl Model for Report {
    ghost use Rattle.std.specs.Prelude.{List, ℕ};

    ghost Value = { List ℕ };

    ghost view = { λ r. r.text.items };
}

impl Report {
    /// An empty report. It takes no memory yet.
    pub fn new(alloc: Global) -> Report
        ensures { result ≡ [] }
    {
        Report {
            text: Vec::new(alloc),
            line: Vec::new(alloc),
        }
    }

    /// The lines so far.
    pub fn text(&self) -> &[u8]
        ensures { result.now ≡ self.now }
    {
        self.text.as_slice()
    }

    /// The lines so far, without a copy.
    pub fn into_text(self) -> Vec<u8>
        ensures { result.items ≡ self }
    {
        self.text
    }

    /// Forgets the lines so far.
    pub fn clear(&mut self)
        ensures { self.new ≡ [] }
    {
        self.text.clear();
    }

    /// Adds the line of an event.
    pub fn tell(
        &mut self,
        resources: &[Resource],
        turn: u32,
        name: &[u8],
        told: Told,
    ) -> Result<(), Memory>
        ensures ok { OnOk result
            (self.new ≡ self.old ++ line_text resources.now turn name.now told) }
        ensures err { OnErr result (self.new ≡ self.old) }
    {
        self.line.clear();
        push_line(&mut self.line, resources, turn, name, told)?;
        self.text.extend_from_slice(self.line.as_slice())?;
        Ok(())
    }

    /// Adds the line of a resource at the end.
    pub fn tell_end(&mut self, name: &[u8], end: FloorEnd) -> Result<(), Memory>
        ensures ok { OnOk result (self.new ≡ self.old ++ end_text name.now end) }
        ensures err { OnErr result (self.new ≡ self.old) }
    {
        self.line.clear();
        push_end(&mut self.line, name, end)?;
        self.text.extend_from_slice(self.line.as_slice())?;
        Ok(())
    }

    /// Adds the totals of the jobs.
    pub fn tell_total(&mut self, states: &[JobState]) -> Result<(), Memory>
        ensures ok { OnOk result (self.new
            ≡ self.old ++ total_text (map (λ state. state.progress) states.now)) }
        ensures err { OnErr result (self.new ≡ self.old) }
    {
        self.line.clear();
        push_total(&mut self.line, states)?;
        self.text.extend_from_slice(self.line.as_slice())?;
        Ok(())
    }
}
