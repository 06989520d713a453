//! The word of a cell: its number in the queue, its state, and what the last caller left in it.

ghost use Rattle.std.specs.Prelude.{◌≡◌, ◌≢◌, ◌%◌, ◌^◌, Option, Some, IfSome, IfNone};
ghost use Rattle.cqs_words.specs.Packing.{IsPacking, IsNoPacking};
ghost use Rattle.cqs_words.specs.Cell.{
  state_code,
  state_of,
  payload_in,
  CellFits,
  index_in,
  packed_cell,
  unpacked_cell,
};

use crate::layout::{CODE_BITS, PAYLOAD_BITS, join, split};

/// What became of a cell. A state's code is its place here, from 0 to 9.
#[derive(Clone, Copy, Debug, PartialEq, Eq)]
pub enum CellState {
    /// Nobody came yet.
    Empty,
    /// The suspend came first and waits.
    Waiter,
    /// The resume came first and left its value.
    Value,
    /// The suspend took the value that was left.
    Taken,
    /// The resume gave up waiting for its value to be taken.
    Broken,
    /// The resume served the waiter.
    Resumed,
    /// The waiter is leaving, and it isn't decided yet whether resumes pass over the cell.
    Cancelling,
    /// The waiter is leaving, and the resume left its value for the canceller to pass on.
    Delegated,
    /// The waiter left, and resumes pass over the cell.
    Cancelled,
    /// The waiter left, and the one resume that meets the cell goes no further.
    Refused,
}

impl CellState {
    #[inline]
    fn code(self) -> u64
        ensures { result ≡ state_code self }
    {
        self as u64
    }

    #[inline]
    fn from_code(code: u64) -> Option<Self>
        ensures { result ≡ state_of code }
    {
        match code {
            0 => Some(CellState::Empty),
            1 => Some(CellState::Waiter),
            2 => Some(CellState::Value),
            3 => Some(CellState::Taken),
            4 => Some(CellState::Broken),
            5 => Some(CellState::Resumed),
            6 => Some(CellState::Cancelling),
            7 => Some(CellState::Delegated),
            8 => Some(CellState::Cancelled),
            9 => Some(CellState::Refused),
            _ => None,
        }
    }
}

/// A cell of the queue.
#[derive(Clone, Copy, Debug, PartialEq, Eq)]
pub struct CellWord {
    /// The cell's number in the queue, below 2^40. By it an exchange tells the cell from an earlier
    /// one that lay in the same place.
    pub index: u64,
    pub state: CellState,
    /// What the caller who made the state left in the cell, below 2^20.
    pub payload: u32,
}

impl CellWord {
    /// A cell in which nothing is left: its payload is 0.
    #[inline]
    pub fn bare(index: u64, state: CellState) -> Self
        ensures { result ≡ record { index = index; state = state; payload = 0 } }
    {
        CellWord {
            index,
            state,
            payload: 0,
        }
    }

    /// The number that stands for this cell.
    #[inline]
    pub fn pack(self) -> u64
        requires { CellFits self }
        ensures value { result ≡ packed_cell self }
        ensures back { unpacked_cell result ≡ Some self }
    {
        let above = join(self.index, CODE_BITS, self.state.code());
        join(above, PAYLOAD_BITS, u64::from(self.payload))
    }

    /// The cell that the number stands for.
    #[inline]
    pub fn unpack(word: u64) -> Option<Self>
        ensures value { result ≡ unpacked_cell word }
        ensures packing { IfSome result (IsPacking CellFits packed_cell word) }
        ensures no_packing { IfNone result (IsNoPacking CellFits packed_cell word) }
    {
        let (above, payload) = split(word, PAYLOAD_BITS);
        let (index, code) = split(above, CODE_BITS);
        let state = CellState::from_code(code)?;
        Some(CellWord {
            index,
            state,
            payload: payload as u32,
        })
    }

    /// The number in the queue of the cell that this word stands for. Whoever knows a place alone
    /// tells by it whether the cell there is still the one that it looks for.
    #[inline]
    pub fn index_in(word: u64) -> u64
        ensures { result ≡ index_in word }
    {
        split(word, CODE_BITS + PAYLOAD_BITS).0
    }

    /// The payload of the cell that the number stands for, where that is in this state. Whoever
    /// waits for one state alone asks so: it is one comparison, and `unpack` is a range of them.
    #[inline]
    pub fn payload_in(word: u64, state: CellState) -> Option<u32>
        ensures { result ≡ payload_in state (unpacked_cell word) }
    {
        let (above, payload) = split(word, PAYLOAD_BITS);
        let (_, code) = split(above, CODE_BITS);
        if code == state.code() {
            Some(payload as u32)
        } else {
            None
        }
    }

    /// The low 32 bits of the packing, which are all that the kernel compares where a waiter sleeps
    /// on the cell's word. Whoever changes the state changes them.
    #[inline]
    pub fn low_half(self) -> u32
        requires { CellFits self }
        ensures value { result ≡ packed_cell self % 2 ^ 32 }
        ensures awake { (cell : CellWord) → CellFits cell → cell.state ≢ self.state
            → packed_cell cell % 2 ^ 32 ≢ result }
    {
        split(self.pack(), u32::BITS).1 as u32
    }
}
