//! What a pass of the letters' queue knows. No value of it is made.

use crate::letter::Letter;
use std::collections::LinkedList;

/// What a post had sent when it met the desk.
pub struct Finished {
    pub sender: u32,
    pub sent: LinkedList<Letter>,
}

/// What a pass knows of the letters.
pub enum Known {
    /// The desk: how many posts were made, what it received, and which posts it met.
    Desk {
        made: u32,
        received: LinkedList<Letter>,
        met: LinkedList<Finished>,
    },
    /// A post: its number, and what it has sent.
    Post {
        sender: u32,
        sent: LinkedList<Letter>,
    },
    /// A pass that was joined away.
    Gone,
}
