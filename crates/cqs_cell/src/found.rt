//! The cell of a number, by the word that was found where it stood.

ghost use Rattle.std.specs.Prelude.{◌≡◌};
ghost use Rattle.cqs_words.specs.Cell.{unpacked_cell};
ghost use Rattle.cqs_cell.specs.Found.{cell_found};

use cqs_words::{CellState, CellWord};

// A word of another number says that the cell has left, which it does only after it was cancelled.
#[inline(always)]
pub(crate) fn cell_found(word: u64, index: u64) -> CellWord
    ensures { result ≡ cell_found index (unpacked_cell word) }
{
    match CellWord::unpack(word) {
        Some(cell) if cell.index == index => cell,
        _ => CellWord::bare(index, CellState::Cancelled),
    }
}
