//! The word of a slot: whether it is free, claimed or live, and for which segment.

ghost use Rattle.std.specs.Prelude.{◌≡◌, Option, Some, IfSome, IfNone};
ghost use Rattle.cqs_words.specs.Packing.{IsPacking, IsNoPacking};
ghost use Rattle.cqs_words.specs.Head.{tag_code, tag_of, HeadFits, packed_head, unpacked_head};

use crate::layout::{IDS, TAG_BITS, join, split};

/// Whether a slot holds a segment. A tag's code is its place here, from 0 to 2.
#[derive(Clone, Copy, Debug, PartialEq, Eq)]
pub enum HeadTag {
    /// No segment lies in the slot.
    Free,
    /// One caller has the slot, to make a segment in it.
    Claimed,
    /// A segment lies in the slot.
    Live,
}

impl HeadTag {
    #[inline]
    fn code(self) -> u64
        ensures { result ≡ tag_code self }
    {
        self as u64
    }

    #[inline]
    fn from_code(code: u64) -> Option<Self>
        ensures { result ≡ tag_of code }
    {
        match code {
            0 => Some(HeadTag::Free),
            1 => Some(HeadTag::Claimed),
            2 => Some(HeadTag::Live),
            _ => None,
        }
    }
}

/// The head of a slot that segments lie in, one after the other.
#[derive(Clone, Copy, Debug, PartialEq, Eq)]
pub struct HeadWord {
    /// The segment, below 2^36. The ids of a slot only rise.
    pub id: u64,
    pub tag: HeadTag,
}

impl HeadWord {
    /// The number that stands for this head.
    #[inline]
    pub fn pack(self) -> u64
        requires { HeadFits self }
        ensures value { result ≡ packed_head self }
        ensures back { unpacked_head result ≡ Some self }
    {
        join(self.id, TAG_BITS, self.tag.code())
    }

    /// The head that the number stands for.
    #[inline]
    pub fn unpack(word: u64) -> Option<Self>
        ensures value { result ≡ unpacked_head word }
        ensures packing { IfSome result (IsPacking HeadFits packed_head word) }
        ensures no_packing { IfNone result (IsNoPacking HeadFits packed_head word) }
    {
        let (id, code) = split(word, TAG_BITS);
        if id >= IDS {
            return None;
        }
        let tag = HeadTag::from_code(code)?;
        Some(HeadWord { id, tag })
    }
}
