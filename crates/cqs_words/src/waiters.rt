//! The packed word of a latch: how many callers wait at it, and whether it is open.

ghost use Rattle.std.specs.Prelude.{◌≡◌, ◌+◌, ◌^◌, ◌<◌, bit_or};
ghost use Rattle.cqs_words.specs.Packing.{IsPacking};
ghost use Rattle.cqs_words.specs.Waiters.{WaitersFit, packed_waiters, unpacked_waiters, waiters_in, is_done};

use crate::layout::DONE;

/// How many callers wait at a latch, and whether it is open: its done bit.
#[derive(Clone, Copy)]
pub struct WaitersWord {
    /// Below 2^63.
    pub waiters: u64,
    pub done: bool,
}

impl WaitersWord {
    /// What is set in the number to open the latch: the highest bit. No number of waiters
    /// reaches it.
    pub const DONE_BIT: u64 = DONE;

    /// The number that stands for so many waiters and this bit.
    #[inline]
    pub fn pack(self) -> u64
        requires { WaitersFit self }
        ensures value { result ≡ packed_waiters self }
        ensures back { unpacked_waiters result ≡ self }
    {
        if self.done {
            self.waiters + DONE
        } else {
            self.waiters
        }
    }

    /// The waiters and the bit that the number stands for. Each number stands for one.
    #[inline]
    pub fn unpack(word: u64) -> Self
        ensures value { result ≡ unpacked_waiters word }
        ensures packing { IsPacking WaitersFit packed_waiters word result }
    {
        WaitersWord {
            waiters: word % DONE,
            done: word >= DONE,
        }
    }

    /// How many wait, by the number that stands for them.
    #[inline]
    pub fn waiters_in(word: u64) -> u64
        ensures value { result ≡ waiters_in word }
        ensures below { result < 2 ^ 63 }
    {
        word % DONE
    }

    /// Whether the done bit is set in the number.
    #[inline]
    pub fn is_done(word: u64) -> bool
        ensures { result ≡ is_done word }
    {
        word >= DONE
    }
}
