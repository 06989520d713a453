//! The acknowledgements of all senders: a queue for each.

ghost use Rattle.std.specs.Prelude.{◌≡◌, ◌<◌, vec_len, IfOk};
ghost use Rattle.cqs_mailbox.specs.Senders.{AreForSenders};

use crate::replies::{Replies, RepliesPass, open};
use std::alloc::{AllocError, Global};

// A queue for each of so many senders, and the desk's pass of each. No post was made yet.
pub(crate) fn open_all(
    alloc: Global,
    senders: u32,
    room: u32,
) -> Result<(Vec<Replies>, Vec<RepliesPass>), AllocError>
    requires { 0 < room }
    ensures many { IfOk result (λ made. vec_len made.0 ≡ senders) }
    ensures each { IfOk result (λ made. AreForSenders room 0 made.0.items made.1.items) }
{
    let mut replies = Vec::new(alloc);
    let mut desks = Vec::new(alloc);
    for _sender in 0..senders {
        let (queue, desk) = open(alloc, room as usize)?;
        replies.push(queue)?;
        desks.push(desk)?;
    }
    Ok((replies, desks))
}
