//! What the word of a head says.

ghost use Rattle.std.specs.Prelude.{◌≡◌, ◌<◌, ◌^◌, IfSome, IfNone};
ghost use Rattle.cqs_words.specs.Head.{head_word};
ghost use Rattle.cqs_segment.specs.Slots.{IsNotClaimed, IsNotLive, IsTaken};

use cqs_words::{HeadTag, HeadWord};

// The id that a free head keeps.
pub(crate) fn free_id(word: u64) -> Option<u64>
    ensures free { IfSome result (λ id. (id < 2 ^ 36) × (word ≡ head_word id 0)) }
    ensures taken { IfNone result (IsTaken word) }
{
    match HeadWord::unpack(word) {
        Some(
            HeadWord {
                id,
                tag: HeadTag::Free,
            },
        ) => Some(id),
        _ => None,
    }
}

// The id that a claimed head keeps.
pub(crate) fn claimed_id(word: u64) -> Option<u64>
    ensures claimed { IfSome result (λ id. (id < 2 ^ 36) × (word ≡ head_word id 1)) }
    ensures other { IfNone result (IsNotClaimed word) }
{
    match HeadWord::unpack(word) {
        Some(
            HeadWord {
                id,
                tag: HeadTag::Claimed,
            },
        ) => Some(id),
        _ => None,
    }
}

// The segment that stands there, if the head is live.
pub(crate) fn live_id(word: u64) -> Option<u64>
    ensures live { IfSome result (λ id. (id < 2 ^ 36) × (word ≡ head_word id 2)) }
    ensures other { IfNone result (IsNotLive word) }
{
    match HeadWord::unpack(word) {
        Some(
            HeadWord {
                id,
                tag: HeadTag::Live,
            },
        ) => Some(id),
        _ => None,
    }
}
