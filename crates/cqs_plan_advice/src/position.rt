//! Places of a text that a person can go to.

use std::fmt;

/// A line and a column of a text, both from 1. A column counts characters.
#[derive(Clone, Copy)]
pub struct Position {
    line: usize,
    column: usize,
}

impl Position {
    /// Where the byte with this number stands.
    pub fn of(text: &[u8], at: usize) -> Position {
        let mut line = 1usize;
        let mut column = 1usize;
        for byte in text.iter().take(at) {
            if *byte == b'\n' {
                line = line.saturating_add(1);
                column = 1;
            } else if *byte & 0xC0 != 0x80 {
                column = column.saturating_add(1);
            }
        }
        Position { line, column }
    }
}

impl fmt::Display for Position {
    fn fmt<W: fmt::Write>(&self, f: &mut fmt::Formatter<W>) -> fmt::Result {
        let (line, column) = (self.line, self.column);
        write!(f, "line {line}, column {column}")
    }
}
