//! Patterns of text, in which numbers are filled in.

use std::io::Write;

/// Writes a pattern, with the numbers in the places of its `@` signs, one after the other.
pub fn write_filled<W: Write>(out: &mut W, pattern: &str, numbers: &[u64]) -> anyhow::Result<()> {
    for (place, piece) in pattern.split('@').enumerate() {
        out.write_all(piece.as_bytes())?;
        if let Some(number) = numbers.get(place) {
            write!(out, "{number}")?;
        }
    }
    Ok(())
}
