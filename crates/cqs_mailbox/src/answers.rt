//! What the calls of a mailbox answer.

ghost use Rattle.std.specs.Prelude.{◌≡◌};
ghost use Rattle.cqs_mailbox.specs.Calls.{as_taking};

use crate::letter::Letter;
use cqs_pool::{Element, Taking};
use cqs_rule::Wait;

/// What a letter is sent with. It is neither copied nor cloned; one that is dropped is lost to the
/// mailbox.
pub type Envelope = Element;

/// A wait in line for an envelope.
pub type PostWait = Wait;

/// What became of a call for room.
#[derive(Drop)]
pub enum Room {
    /// The post has an envelope.
    Got(Envelope),
    /// The post waits in line.
    Later(PostWait),
}

pub(crate) fn room_by(taking: Taking) -> Room
    ensures { as_taking result ≡ taking }
{
    match taking {
        Taking::Took(envelope) => Room::Got(envelope),
        Taking::Later(wait) => Room::Later(wait),
    }
}

/// What the desk received.
#[derive(Drop)]
pub enum Received {
    /// The oldest letter of all.
    Got(Letter),
    /// No letter was there.
    Empty,
}

/// There was no room for a further acknowledgement.
#[derive(Clone, Copy, Debug, PartialEq, Eq)]
pub struct ReplyFull;

/// Why no post was made.
#[derive(Clone, Copy, Debug, PartialEq, Eq)]
pub enum SplitError {
    /// There was no memory for the envelopes that are out.
    Memory,
    /// As many posts were made as there may be.
    Crowd,
}
