//! Draws the report of a plan: reads it on standard input, and writes an SVG to standard output.
//! One bar for each job, over the turns, and below them one row for each resource: upwards how many
//! are held, downwards how many wait.
//!
//! Where a line is none of a report, nothing is drawn, and standard error has its number. A job
//! that has no line at all isn't drawn.
#![tactic(auto)]

mod drawing;
mod filling;
mod lines;
mod rows;

use crate::drawing::draw;
use crate::rows::Rows;
use std::alloc::Global;
use std::io::{self, BufRead, BufReader, BufWriter, Write};

/// The lines of standard input.
fn lines_of(rt: &HostRuntime, alloc: Global) -> anyhow::Result<Vec<String>> {
    let mut lines = Vec::new(alloc);
    for line in BufReader::new(alloc, rt.reader())?.lines(alloc) {
        lines.push(line?)?;
    }
    Ok(lines)
}

/// Writes the picture of these rows to standard output.
fn show(rt: &HostRuntime, alloc: Global, rows: &Rows) -> anyhow::Result<()> {
    let mut out = BufWriter::new(alloc, io::writer(rt))?;
    draw(&mut out, alloc, rows)?;
    out.flush()?;
    Ok(())
}

fn main(rt: HostRuntime) -> anyhow::Result<()> {
    let alloc = rt.alloc();
    let lines = lines_of(&rt, alloc)?;
    let rows = Rows::read(alloc, lines.as_slice())?;
    show(&rt, alloc, &rows)
}
