//! The word of the crew: how many passes were made, and how many of them are live.

ghost use Rattle.std.specs.Prelude.{◌≡◌, ◌+◌, ◌<◌, ◌^◌};
ghost use Rattle.cqs_words.specs.Packing.{IsPacking};
ghost use Rattle.cqs_words.specs.Crew.{made_in, live_in, CrewFits, packed_crew, unpacked_crew, crew_word};

use crate::layout::{LIVE_BITS, join, split};

/// How many passes were made, and how many of them are live.
#[derive(Clone, Copy, Debug, PartialEq, Eq)]
pub struct CrewWord {
    pub made: u32,
    pub live: u32,
}

impl CrewWord {
    /// The number that stands for this crew.
    #[inline]
    pub fn pack(self) -> u64
        ensures value { result ≡ packed_crew self }
        ensures back { unpacked_crew result ≡ self }
    {
        join(u64::from(self.made), LIVE_BITS, u64::from(self.live))
    }

    /// The crew that the number stands for. Each number stands for one.
    #[inline]
    pub fn unpack(word: u64) -> Self
        ensures value { result ≡ unpacked_crew word }
        ensures packing { IsPacking CrewFits packed_crew word result }
    {
        let (made, live) = split(word, LIVE_BITS);
        CrewWord {
            made: made as u32,
            live: live as u32,
        }
    }

    /// How many passes were made, in the crew that the number stands for.
    #[inline]
    pub fn made_in(word: u64) -> u32
        ensures { result ≡ made_in word }
    {
        split(word, LIVE_BITS).0 as u32
    }

    /// How many passes are live, in the crew that the number stands for.
    #[inline]
    pub fn live_in(word: u64) -> u32
        ensures { result ≡ live_in word }
    {
        split(word, LIVE_BITS).1 as u32
    }

    /// The number of the crew after one more pass was made, which is live.
    #[inline]
    pub fn with_one_more(word: u64) -> u64
        requires few { made_in word < 2 ^ 31 }
        ensures { result ≡ word + crew_word 1 1 }
    {
        word + CrewWord { made: 1, live: 1 }.pack()
    }
}
