//! How a post sends, and has its envelopes back.

ghost use Rattle.std.specs.Prelude.{◌≡◌, IfSome, MatchOption, MatchResult};
ghost use Rattle.cqs_pool.specs.Elements.{number_of};
ghost use Rattle.cqs_mailbox.specs.Calls.{HasNone, HasReclaimed, HasSent, IsBesideLine, WasFull};
ghost use Rattle.cqs_mailbox.specs.Mailboxes.{IsPostOf, IsSpare, room_of};

use crate::answers::Envelope;
use crate::letter::Letter;
use crate::letters::put;
use crate::mailbox::{Mailbox, Post};
use crate::replies::take;
use std::sync::Wait;

impl Mailbox {
    /// Sends the post's next letter, and answers its number. The envelope is out with it then. It
    /// comes back where the queue held as many letters as it has room for, at a step of this call.
    /// After 2^64 - 1 letters of one post it waits for ever.
    pub fn send<R: Wait>(
        &self,
        rt: &R,
        post: &mut Post,
        envelope: Envelope,
        word: u64,
    ) -> Result<u64, Envelope>
        requires belongs { IsPostOf self.now post.old }
        requires spare { IsSpare (number_of envelope) post.old }
        ensures belongs { IsPostOf self.now post.new }
        ensures beside { IsBesideLine post.old post.new }
        ensures sent { MatchResult result
            (λ number. HasSent post.old number word envelope post.new)
            (λ back. (back ≡ envelope) × WasFull (room_of self.now) post.old post.new) }
    {
        let number = post.next;
        if number == u64::MAX {
            for _ in rt.forever() {}
            unreachable!();
        }
        let letter = Letter {
            sender: post.sender,
            number,
            word,
        };
        match put(rt, &self.letters, &mut post.letters, letter) {
            Ok(()) => {
                post.next = number + 1;
                post.sent.push_back_reserved(envelope);
                Ok(number)
            }
            Err(_) => Err(envelope),
        }
    }

    /// Takes one acknowledgement, and has the oldest envelope back that is out with a letter.
    pub fn reclaim<R: Wait>(&self, rt: &R, post: &mut Post) -> Option<Envelope>
        requires belongs { IsPostOf self.now post.old }
        ensures belongs { IsPostOf self.now post.new }
        ensures beside { IsBesideLine post.old post.new }
        ensures reclaimed { MatchOption result (HasNone post.old post.new)
            (λ envelope. HasReclaimed post.old envelope post.new) }
        ensures spare { IfSome result (λ envelope. IsSpare (number_of envelope) post.new) }
    {
        if post.sent.is_empty() {
            return None;
        }
        match take(rt, &self.replies[post.sender as usize], &mut post.replies) {
            Some(()) => post.sent.pop_front(),
            None => None,
        }
    }
}
