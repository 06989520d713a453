//! The word of a signed count: so much is free, or so many callers wait.

ghost use Rattle.std.specs.Prelude.{◌≡◌, ◌-◌, ◌-ℤ◌, pos, true, Option, Some, IfSome, IfNone};
ghost use Rattle.cqs_words.specs.Packing.{IsPacking, IsNoPacking};
ghost use Rattle.cqs_words.specs.State.{StateFits, packed_state, unpacked_state, count_in, is_above_zero, is_below_zero};

use crate::layout::BIAS;

/// A signed count. A semaphore's permits: above 0 so many are free, below 0 so many callers wait.
/// Or that of a latch: above 0 it is to be counted down so often, else it is used up.
#[derive(Clone, Copy, Debug, PartialEq, Eq)]
pub struct StateWord {
    /// From -(2^32 - 1) to 2^32 - 1.
    pub value: i64,
}

impl StateWord {
    /// The number that stands for this count.
    #[inline]
    pub fn pack(self) -> u64
        requires { StateFits self }
        ensures value { result ≡ packed_state self }
        ensures back { unpacked_state result ≡ Some self }
    {
        (self.value + BIAS) as u64
    }

    /// The count that the number stands for.
    #[inline]
    pub fn unpack(word: u64) -> Option<Self>
        ensures value { result ≡ unpacked_state word }
        ensures packing { IfSome result (IsPacking StateFits packed_state word) }
        ensures no_packing { IfNone result (IsNoPacking StateFits packed_state word) }
    {
        if word == 0 || word >= 2 * BIAS as u64 {
            return None;
        }
        Some(StateWord::read(word))
    }

    /// The count that the number stands for, where it is known to stand for one.
    #[inline]
    pub fn read(word: u64) -> Self
        requires { StateFits (record { value = count_in word }) }
        ensures value { result ≡ record { value = count_in word } }
        ensures packing { IsPacking StateFits packed_state word result }
    {
        StateWord {
            value: word as i64 - BIAS,
        }
    }

    /// Whether the count that the number stands for is above 0.
    #[inline]
    pub fn is_above_zero(word: u64) -> bool
        ensures { result ≡ is_above_zero word }
    {
        word > BIAS as u64
    }

    /// Whether the count that the number stands for is below 0.
    #[inline]
    pub fn is_below_zero(word: u64) -> bool
        ensures { result ≡ is_below_zero word }
    {
        word < BIAS as u64
    }
}

/// The word of a state as a step found it. Only this crate takes it apart.
#[derive(Clone, Copy)]
pub struct PackedState {
    /// The number that stands for the count, as [StateWord::pack] gives it.
    pub word: u64,
}

impl PackedState {
    /// Whether the count is above 0.
    #[inline]
    pub fn is_above_zero(self) -> bool
        ensures { result ≡ is_above_zero self.word }
    {
        StateWord::is_above_zero(self.word)
    }

    /// Whether the count is below 0.
    #[inline]
    pub fn is_below_zero(self) -> bool
        ensures { result ≡ is_below_zero self.word }
    {
        StateWord::is_below_zero(self.word)
    }

    /// The count, where the number stands for one.
    #[inline]
    pub fn unpack(self) -> Option<StateWord>
        ensures { result ≡ unpacked_state self.word }
    {
        StateWord::unpack(self.word)
    }

    /// The word of the state that is one less.
    #[inline]
    pub fn one_less(self) -> Self
        requires { is_above_zero self.word ≡ true }
        ensures word { result.word ≡ self.word - 1 }
        ensures count { count_in result.word ≡ count_in self.word -ℤ pos 1 }
    {
        PackedState {
            word: self.word - 1,
        }
    }
}
