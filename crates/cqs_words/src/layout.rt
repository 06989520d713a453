//! Where the fields lie. A word is a stack of fields, the lowest first. `join` puts one more field
//! below what is there, and `split` takes it away again.

ghost use Rattle.std.specs.Prelude.{◌≡◌, ◌+◌, ◌*◌, ◌/◌, ◌%◌, ◌^◌, ◌<◌};

// A cell has its payload in the lowest bits, then the code of its state, and its
// index in the 40 bits above.
pub(crate) const PAYLOAD_BITS: u32 = 20;

pub(crate) const CODE_BITS: u32 = 4;

// A head has its tag in the lowest bits, and a tail and a link have their slot there. Above it is
// the id of a segment, which is one of this many.
pub(crate) const TAG_BITS: u32 = 2;

pub(crate) const SLOT_BITS: u32 = 16;

pub(crate) const IDS: u64 = 1 << 36;

// A crew has the passes that are live in the lowest bits, and those that were made above them.
pub(crate) const LIVE_BITS: u32 = 32;

// A signed count is raised by this much, so that an addition to the number is one to the count.
pub(crate) const BIAS: i64 = 1 << 32;

// The done bit of a latch is the highest of the word in which its waiters are counted.
pub(crate) const DONE: u64 = 1 << 63;

// `low` in the lowest `width` bits, and `high` above them.
#[inline]
pub(crate) fn join(high: u64, width: u32, low: u64) -> u64
    requires narrow { width < 64 }
    requires room { high * 2 ^ width < 2 ^ 64 }
    requires below { low < 2 ^ width }
    ensures { result ≡ high * 2 ^ width + low }
{
    high << width | low
}

// What stands above the lowest `width` bits, and what stands in them.
#[inline]
pub(crate) fn split(word: u64, width: u32) -> (u64, u64)
    requires { width < 64 }
    ensures high { result.0 ≡ word / 2 ^ width }
    ensures low { result.1 ≡ word % 2 ^ width }
{
    (word >> width, word & ((1 << width) - 1))
}
