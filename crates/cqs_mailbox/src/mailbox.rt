//! The mailbox, its desk and its posts.

ghost use Rattle.std.specs.Prelude.{◌≡◌};
ghost use Rattle.cqs_mailbox.specs.Mailboxes.{sender_of};

use crate::answers::Envelope;
use crate::letters::{Letters, LettersPass};
use crate::replies::{Replies, RepliesPass};
use cqs_pool::{Pool, PoolPass};
use std::collections::VecDeque;

/// A mailbox of bounded room: a pool of envelopes, a queue of letters, and a queue of
/// acknowledgements for each sender.
#[derive(Drop)]
pub struct Mailbox {
    pub(crate) pool: Pool,
    pub(crate) letters: Letters,
    pub(crate) replies: Vec<Replies>,
}

/// What receives and acknowledges. There is one.
#[derive(Drop)]
pub struct Desk {
    pub(crate) posts: u32,
    pub(crate) pool: PoolPass,
    // The passes of the posts that aren't made yet. They are made with the mailbox, so a post finds
    // its pass whatever else was done at the pool.
    pub(crate) spare: Vec<PoolPass>,
    pub(crate) letters: LettersPass,
    pub(crate) replies: Vec<RepliesPass>,
}

/// What sends. Each post is a sender of its own.
#[derive(Drop)]
pub struct Post {
    pub(crate) sender: u32,
    pub(crate) next: u64,
    pub(crate) pool: PoolPass,
    pub(crate) letters: LettersPass,
    pub(crate) replies: RepliesPass,
    // The envelopes of letters whose acknowledgement it hasn't taken, the oldest first.
    pub(crate) sent: VecDeque<Envelope>,
}

impl Post {
    /// Its number among the senders. The first post has number 0.
    pub fn sender(&self) -> u32
        ensures { result ≡ sender_of self.now }
    {
        self.sender
    }
}
