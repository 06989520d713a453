//! How the jobs of a plan ended, and how many in each way.

ghost use Rattle.std.specs.Prelude.{◌≡◌, ◌≤◌, ◌+◌, count_by, length};
ghost use Rattle.cqs_work.specs.Ends.{AreTotals, is_done, has_given_up, is_late, is_crowded, is_unfinished};

use std::marker::Model;

/// How a job ended that was one worker's.
#[derive(Clone, Copy)]
pub enum JobEnd {
    /// It made all its steps.
    Done,
    /// A wait of it wasn't served in time, and it had no retry left, or its deadline had come.
    GaveUp,
    /// It wanted to leave a wait that was over time, and was too late: it had been served, or at a
    /// barrier all had arrived.
    Late,
    /// A call of it was turned away.
    Crowded,
    /// It hadn't ended after the last turn.
    Unfinished,
}

/// How each job of a plan ended, in the plan's order.
#[derive(Drop)]
pub struct JobEnds {
    items: Vec<JobEnd>,
}

impl Model for JobEnds {
    ghost use Rattle.std.specs.Prelude.{List};
    ghost use Rattle.cqs_work.specs.declared.ends.JobEnd.{JobEnd};

    ghost Value = { List JobEnd };

    ghost view = { λ ends. ends.items.items };
}

impl From<Vec<JobEnd>> for JobEnds {
    ghost from_gives = { λ items ends. ends ≡ items.items };

    fn from(items: Vec<JobEnd>) -> Self {
        JobEnds { items }
    }
}

impl JobEnds {
    pub fn as_slice(&self) -> &[JobEnd]
        ensures { result.now ≡ self.now }
    {
        self.items.as_slice()
    }

    pub fn into_vec(self) -> Vec<JobEnd>
        ensures { result.items ≡ self }
    {
        self.items
    }
}

/// How many jobs ended in each way.
#[derive(Clone, Copy)]
pub struct Totals {
    pub done: u32,
    pub gave_up: u32,
    pub late: u32,
    pub crowded: u32,
    pub unfinished: u32,
}

fn done_in(ends: &[JobEnd]) -> u32
    requires { length ends.now ≤ 4096 }
    ensures { result ≡ count_by is_done ends.now }
{
    ends.iter()
        .filter(|end| matches!(end, JobEnd::Done))
        .count() as u32
}

fn given_up_in(ends: &[JobEnd]) -> u32
    requires { length ends.now ≤ 4096 }
    ensures { result ≡ count_by has_given_up ends.now }
{
    ends.iter()
        .filter(|end| matches!(end, JobEnd::GaveUp))
        .count() as u32
}

fn late_in(ends: &[JobEnd]) -> u32
    requires { length ends.now ≤ 4096 }
    ensures { result ≡ count_by is_late ends.now }
{
    ends.iter()
        .filter(|end| matches!(end, JobEnd::Late))
        .count() as u32
}

fn crowded_in(ends: &[JobEnd]) -> u32
    requires { length ends.now ≤ 4096 }
    ensures { result ≡ count_by is_crowded ends.now }
{
    ends.iter()
        .filter(|end| matches!(end, JobEnd::Crowded))
        .count() as u32
}

fn unfinished_in(ends: &[JobEnd]) -> u32
    requires { length ends.now ≤ 4096 }
    ensures { result ≡ count_by is_unfinished ends.now }
{
    ends.iter()
        .filter(|end| matches!(end, JobEnd::Unfinished))
        .count() as u32
}

/// Counts the ends of a plan's jobs. Each job is counted once.
pub fn totals_of(ends: &[JobEnd]) -> Totals
    requires { length ends.now ≤ 4096 }
    ensures counts { AreTotals ends.now result }
    ensures all { result.done + result.gave_up + result.late + result.crowded + result.unfinished
        ≡ length ends.now }
{
    Totals {
        done: done_in(ends),
        gave_up: given_up_in(ends),
        late: late_in(ends),
        crowded: crowded_in(ends),
        unfinished: unfinished_in(ends),
    }
}
