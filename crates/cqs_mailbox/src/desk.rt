//! How the desk receives and acknowledges.

ghost use Rattle.std.specs.Prelude.{◌≡◌, MatchResult};
ghost use Rattle.cqs_mailbox.specs.Calls.{Acknowledges, IsReplyFull, Receives, ReceivesDue};
ghost use Rattle.cqs_mailbox.specs.Mailboxes.{IsDeskOf, IsDue, posts_of, room_of};

use crate::answers::{Received, ReplyFull};
use crate::letters::take;
use crate::mailbox::{Desk, Mailbox};
use crate::replies::give;
use std::sync::Wait;

impl Mailbox {
    /// The oldest letter of all, or that none was there at a step of this call.
    pub fn receive<R: Wait>(&self, rt: &R, desk: &mut Desk) -> Received
        requires belongs { IsDeskOf self.now desk.old }
        ensures belongs { IsDeskOf self.now desk.new }
        ensures received { Receives desk.old result desk.new }
        ensures due { ReceivesDue result desk.new }
        ensures posts { posts_of desk.new ≡ posts_of desk.old }
        ensures pool { desk.new.pool ≡ desk.old.pool }
        ensures replies { desk.new.replies ≡ desk.old.replies }
    {
        match take(rt, &self.letters, &mut desk.letters) {
            Some(letter) => Received::Got(letter),
            None => Received::Empty,
        }
    }

    /// Acknowledges one letter more of this sender, of which more were received than acknowledged.
    /// It is refused where the sender's queue held as many acknowledgements as there are envelopes,
    /// at a step of this call.
    pub fn acknowledge<R: Wait>(
        &self,
        rt: &R,
        desk: &mut Desk,
        sender: u32,
    ) -> Result<(), ReplyFull>
        requires belongs { IsDeskOf self.now desk.old }
        requires due { IsDue sender desk.old }
        ensures belongs { IsDeskOf self.now desk.new }
        ensures acknowledged { MatchResult result
            (λ _. Acknowledges sender desk.old desk.new)
            (λ _. IsReplyFull (room_of self.now) sender desk.old desk.new) }
        ensures pool { desk.new.pool ≡ desk.old.pool }
        ensures letters { desk.new.letters ≡ desk.old.letters }
    {
        let at = sender as usize;
        match give(rt, &self.replies[at], &mut desk.replies[at]) {
            Ok(()) => Ok(()),
            Err(()) => Err(ReplyFull),
        }
    }
}
