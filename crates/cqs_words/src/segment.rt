//! The words of the last segment and of the next one, each with the slot that it lies in.

ghost use Rattle.std.specs.Prelude.{◌≡◌, Option, Some, IfSome, IfNone};
ghost use Rattle.cqs_words.specs.Packing.{IsPacking, IsNoPacking};
ghost use Rattle.cqs_words.specs.Segment.{TailFits, packed_tail, unpacked_tail, LinkFits, packed_link, unpacked_link};

use crate::layout::{IDS, SLOT_BITS, join, split};

/// The last segment of the queue.
#[derive(Clone, Copy, Debug, PartialEq, Eq)]
pub struct TailWord {
    /// The segment, below 2^36.
    pub id: u64,
    /// The slot that it lies in, below 2^16.
    pub slot: u32,
}

impl TailWord {
    /// The number that stands for this tail.
    #[inline]
    pub fn pack(self) -> u64
        requires { TailFits self }
        ensures value { result ≡ packed_tail self }
        ensures back { unpacked_tail result ≡ Some self }
    {
        join(self.id, SLOT_BITS, u64::from(self.slot))
    }

    /// The tail that the number stands for.
    #[inline]
    pub fn unpack(word: u64) -> Option<Self>
        ensures value { result ≡ unpacked_tail word }
        ensures packing { IfSome result (IsPacking TailFits packed_tail word) }
        ensures no_packing { IfNone result (IsNoPacking TailFits packed_tail word) }
    {
        let (id, slot) = split(word, SLOT_BITS);
        if id >= IDS {
            return None;
        }
        Some(TailWord {
            id,
            slot: slot as u32,
        })
    }
}

/// The segment that comes next after a segment.
#[derive(Clone, Copy, Debug, PartialEq, Eq)]
pub struct LinkWord {
    /// The segment, below 2^36. A link whose id isn't above that of the segment it
    /// belongs to names nothing.
    pub id: u64,
    /// The slot that it lies in, below 2^16.
    pub slot: u32,
}

impl LinkWord {
    /// The number that stands for this link.
    #[inline]
    pub fn pack(self) -> u64
        requires { LinkFits self }
        ensures value { result ≡ packed_link self }
        ensures back { unpacked_link result ≡ Some self }
    {
        join(self.id, SLOT_BITS, u64::from(self.slot))
    }

    /// The link that the number stands for.
    #[inline]
    pub fn unpack(word: u64) -> Option<Self>
        ensures value { result ≡ unpacked_link word }
        ensures packing { IfSome result (IsPacking LinkFits packed_link word) }
        ensures no_packing { IfNone result (IsNoPacking LinkFits packed_link word) }
    {
        let (id, slot) = split(word, SLOT_BITS);
        if id >= IDS {
            return None;
        }
        Some(LinkWord {
            id,
            slot: slot as u32,
        })
    }
}
