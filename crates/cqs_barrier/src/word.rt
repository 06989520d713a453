//! The word of a barrier: how many parties are still to arrive, and how many there are.

ghost use Rattle.std.specs.Prelude.{◌≡◌, ◌+◌, ◌<◌, ◌^◌};
ghost use Rattle.cqs_barrier.specs.Word.{word_of, parties_in, remaining_in, is_over, is_last};

const UPPER: u64 = 4_294_967_296;

/// The word of a barrier with so many parties, of which so many are still to arrive.
pub(crate) fn word(parties: u32, remaining: u32) -> u64
    ensures { result ≡ word_of parties remaining }
{
    u64::from(parties) * UPPER + u64::from(remaining)
}

/// How many are still to arrive.
pub(crate) fn remaining(word: u64) -> u32
    ensures { result ≡ remaining_in word }
{
    (word % UPPER) as u32
}

/// How many parties there are.
pub(crate) fn parties(word: u64) -> u32
    ensures { result ≡ parties_in word }
{
    (word / UPPER) as u32
}

/// The word of the same barrier, where one party more is still to arrive.
pub(crate) fn one_more(word: u64) -> u64
    requires fits { word + 1 < 2 ^ 64 }
    ensures { result ≡ word + 1 }
{
    word + 1
}

/// Whether all have arrived.
pub(crate) fn over(word: u64) -> bool
    ensures { result ≡ is_over word }
{
    remaining(word) == 0
}

/// Whether one is still to arrive.
pub(crate) fn last(word: u64) -> bool
    ensures { result ≡ is_last word }
{
    remaining(word) == 1
}
