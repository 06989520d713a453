//! Makes the calls of its standard input by `top`, the call that the program makes, one after the
//! other, and prints what each writes.
//!
//! A line that begins with `$ ` has the words of a call; the lines after it, up to the next such
//! line, are what it reads. Each call is printed as that line, what it wrote, and a line with its
//! status. Lines before the first call are for the reader alone.
//!
//! The last line may be `gates`. Then workers run plans of data/ by way of gates. Two workers are
//! kept beside each other by a gate that no single thread passes, whichever of them it takes first.
//! Another gate counts the calls of one worker. Then 4 workers and 16 run a plan whose text tells
//! some things whatever the order in which they come. One more gate stalls a worker with what it
//! has taken until the others have ended; and last, each of 4 workers is held for a while before
//! each of its first calls.
#![tactic(auto)]

mod call;
mod case;
mod gate;
mod gates;
mod holds;
mod lines;
mod stall;
mod tally;

use crate::case::Case;
use crate::gates::tell_gates;
use std::io::{BufRead, BufReader};
use std::rt::Files;
use std::sync::Wait;
use std::thread::Threads;

/// What a line with the words of a call begins with.
const CALL: &str = "$ ";

/// The last line, where workers are to run by way of gates.
const GATES: &str = "gates";

/// Makes the calls of these lines.
fn tell_all<R: Threads + Wait + Sync + Print + AllocGlobal>(
    rt: &R,
    lines: &[String],
) -> anyhow::Result<()> {
    let mut told: Option<Case> = None;
    for line in lines {
        match line.as_str().strip_prefix(CALL) {
            Some(words) => {
                if let Some(case) = &told {
                    case.tell(rt)?;
                }
                println!(rt; "{CALL}{words}")?;
                told = Some(Case::new(rt.alloc(), words)?);
            }
            None => {
                if let Some(case) = &mut told {
                    case.add(line.as_str())?;
                }
            }
        }
    }
    if let Some(case) = &told {
        case.tell(rt)?;
    }
    Ok(())
}

/// Makes the calls of these lines, and runs workers by way of gates where the last line asks.
fn tell<R: Threads + Wait + Sync + Files + Print + AllocGlobal>(
    rt: &R,
    lines: &[String],
) -> anyhow::Result<()> {
    match lines.split_last() {
        Some((last, calls)) if last.as_str() == GATES => {
            tell_all(rt, calls)?;
            tell_gates(rt)
        }
        _ => tell_all(rt, lines),
    }
}

fn main(rt: HostRuntime) -> anyhow::Result<()> {
    let alloc = rt.alloc();
    let mut lines = Vec::new(alloc);
    for line in BufReader::new(alloc, rt.reader())?.lines(alloc) {
        lines.push(line?)?;
    }
    tell(&rt, lines.as_slice())
}
