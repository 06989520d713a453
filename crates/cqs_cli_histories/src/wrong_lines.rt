//! The lines that say where an input is wrong.

ghost use Rattle.std.specs.Prelude.{◌≡◌, IfOk};
ghost use Rattle.cqs_cli_histories.specs.Studies.{wrong_line};

use cqs_core::Memory;
use cqs_lines::write_labelled;
use std::alloc::Global;

/// What is wrong, and in which line, counted from 1.
pub fn wrong_line(alloc: Global, fault: &[u8], number: u64) -> Result<Vec<u8>, Memory>
    ensures { IfOk result (λ line. line.items ≡ wrong_line fault.now number) }
{
    let mut line = Vec::new(alloc);
    write_labelled(&mut line, fault, number)?;
    line.extend_from_slice(b"\n")?;
    Ok(line)
}
