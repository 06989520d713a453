//! The line that names a fault.

ghost use Rattle.std.specs.Prelude.{◌≡◌, IfOk};
ghost use Rattle.cqs_plan.specs.FaultLine.{line_of};

use crate::plans::fault_kind::FaultKind;
use crate::plans::name::Name;
use std::alloc::{AllocError, Global};

/// The line that names a fault, `bad plan: <place>: <kind>` with its line feed.
pub fn fault_line(alloc: Global, place: &Name, kind: FaultKind) -> Result<Vec<u8>, AllocError>
    ensures { IfOk result (λ line. line.items ≡ line_of place.now kind) }
{
    let mut line = "bad plan: ".as_bytes().to_vec(alloc)?;
    line.extend_from_slice(place.as_slice())?;
    line.extend_from_slice(b": ")?;
    line.extend_from_slice(kind.word().as_bytes())?;
    line.extend_from_slice(b"\n")?;
    Ok(line)
}
