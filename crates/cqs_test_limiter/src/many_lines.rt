//! Ten thousand lines of 64 tenants, mixed as by chance. How long the answers are, and their sum,
//! were worked out by another program, a plain loop over a table.

use crate::answering::answers_of;
use cqs_lines::write_said;
use std::alloc::{AllocError, Global};
use std::test::Fail;

const LINES: u32 = 10_000;

const LENGTH: usize = 182_543;

const SUM: u64 = 6_194_577_691_087_953_886;

/// The verb that was drawn.
fn verb_of(drawn: u32) -> &'static str {
    match drawn % 8 {
        0 | 2 | 4 => "enter",
        1 | 5 => "look",
        6 => "quit",
        _ => "leave",
    }
}

/// Appends the line at this place, of one of six clients of a tenant.
fn write_line(text: &mut Vec<u8>, at: u32) -> Result<(), AllocError> {
    let drawn = at.wrapping_mul(2_654_435_761);
    let numbers = [u64::from((drawn >> 8) % 64), u64::from((drawn >> 14) % 6)];
    write_said(text, verb_of(drawn >> 20).as_bytes(), &numbers)?;
    text.extend_from_slice(b"\n")?;
    Ok(())
}

/// All lines, of 64 tenants with two permits each.
fn many_lines(alloc: Global) -> Result<Vec<u8>, AllocError> {
    let mut text = Vec::new(alloc);
    write_said(&mut text, b"tenants", &[2; 64])?;
    text.extend_from_slice(b"\n")?;
    for at in 0..LINES {
        write_line(&mut text, at)?;
    }
    Ok(text)
}

/// The bytes of a text, summed by their places.
fn sum_of(text: &[u8]) -> u64 {
    let mut sum = 0u64;
    for byte in text {
        sum = sum.wrapping_mul(31).wrapping_add(u64::from(*byte));
    }
    sum
}

#[test]
fn many_lines_by_any_workers(rt: HostRuntime) -> Result<(), Fail> {
    let alloc = rt.alloc();
    let text = many_lines(alloc)?;
    for workers in [1, 2, 4, 16] {
        let Some(answers) = answers_of(&rt, alloc, text.as_slice(), workers) else {
            panic!(rt; "the lines are answered");
        };
        assert!(rt; answers.len() == LENGTH);
        assert!(rt; sum_of(answers.as_slice()) == SUM);
    }
    Ok(())
}
