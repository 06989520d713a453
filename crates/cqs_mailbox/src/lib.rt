//! The rules of a mailbox: many posts send letters to one desk, which acknowledges them.
//!
//! ```text
//!  letters:  open ---> the desk;  hire ---> a post more
//!            put ----> the letter is at the back, or the queue was full
//!            take ---> the desk has the oldest letter, or the queue was empty
//!            join ---> a post has met the desk
//!  replies:  the same for one sender's acknowledgements: open, part, give, take, join
//! ```
//!
//! What the desk has received of a post that it has met is a prefix of what that post had sent, in
//! order; and where it finds the queue empty then, it is all of it. A post takes no more
//! acknowledgements than the desk gave.
#![tactic(auto)]

mod answers;
mod desk;
mod known;
mod letter;
pub mod letters;
mod mailbox;
mod opening;
mod posting;
pub mod replies;
mod room;
mod seats;
mod senders;
mod tally;
mod threads;

pub use answers::{Envelope, PostWait, Received, ReplyFull, Room, SplitError};
pub use cqs_pool::{PoolLeft as RoomLeft, PoolPolled as RoomPolled};
pub use known::{Finished, Known};
pub use letter::Letter;
pub use mailbox::{Desk, Mailbox, Post};
pub use tally::Tally;
