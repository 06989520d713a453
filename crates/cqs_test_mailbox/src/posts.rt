//! What a post of these tests does: it comes to an envelope, sends a letter, and gives the envelope
//! back once the letter was acknowledged.

ghost use Rattle.cqs_test_mailbox.specs.Posts.{HasCome, HasLooked, HasSpare, IsAtRest, IsOwing, IsWaiting};

use cqs_mailbox::{Envelope, Mailbox, Post, PostWait, Room, RoomLeft, RoomPolled};
use cqs_pool::Placed;
use cqs_rule::{AcquireError, Under};
use std::process::Abort;
use std::sync::Wait;
use std::thread;

// Looks at the wait until it was served, but no more often than this. Between two looks another
// thread may run.
fn look_on(mailbox: &Mailbox, post: &mut Post, wait: PostWait, looks: u32) -> RoomPolled
    requires waits { IsWaiting mailbox.now wait post.old }
    ensures looked { HasLooked mailbox.now result post.new }
{
    let mut wait = wait;
    for _ in 0..looks {
        match mailbox.poll(post, wait) {
            RoomPolled::Granted(envelope) => return RoomPolled::Granted(envelope),
            RoomPolled::Pending(again) => {
                wait = again;
                thread::yield_now();
            }
        }
    }
    RoomPolled::Pending(wait)
}

// Leaves the line. There is an envelope where one had come before.
fn give_up(rt: &impl Wait, mailbox: &Mailbox, post: &mut Post, wait: PostWait) -> Option<Envelope>
    requires waits { IsWaiting mailbox.now wait post.old }
    ensures come { HasCome mailbox.now result post.new }
{
    match mailbox.cancel(post, wait) {
        RoomLeft::Cancelled(None) => None,
        RoomLeft::Cancelled(Some(under)) => {
            finish_all(rt, mailbox, post, under);
            None
        }
        RoomLeft::TooLate(envelope) => Some(envelope),
    }
}

// Asks for room. Where it has to wait it looks so often, and leaves the line then. Where no slot is
// free for its wait it has none.
fn seek(
    rt: &(impl Abort + Wait),
    mailbox: &Mailbox,
    post: &mut Post,
    looks: u32,
) -> Option<Envelope>
    requires rest { IsAtRest mailbox.now post.old }
    ensures come { HasCome mailbox.now result post.new }
{
    match mailbox.room(post) {
        Ok(Room::Got(envelope)) => Some(envelope),
        Ok(Room::Later(wait)) => match look_on(mailbox, post, wait, looks) {
            RoomPolled::Granted(envelope) => Some(envelope),
            RoomPolled::Pending(wait) => give_up(rt, mailbox, post, wait),
        },
        Err(AcquireError::Crowded) => None,
        Err(AcquireError::Worn) => panic!(rt; "the limit is used up"),
    }
}

// Comes to an envelope. A post that leaves the line is more patient the next time, and so is one
// that found no slot free.
fn obtain(rt: &(impl Abort + Wait), mailbox: &Mailbox, post: &mut Post, patience: u32) -> Envelope
    requires rest { IsAtRest mailbox.now post.old }
    ensures spare { HasSpare mailbox.now result post.new }
{
    let mut looks = patience;
    for _ in rt.forever() {
        if let Some(envelope) = seek(rt, mailbox, post, looks) {
            return envelope;
        }
        looks = looks.saturating_mul(2);
        thread::yield_now();
    }
    unreachable!()
}

/// Gives an envelope back, as soon as a slot is free for that.
pub fn give_back(rt: &impl Wait, mailbox: &Mailbox, post: &mut Post, envelope: Envelope)
    requires spare { HasSpare mailbox.now envelope post.old }
    ensures rest { IsAtRest mailbox.now post.new }
{
    let mut envelope = envelope;
    for _ in rt.forever() {
        match mailbox.post_back(post, envelope) {
            Ok(Placed::Sent(_) | Placed::Left(_)) => return,
            Ok(Placed::Under(under)) => return finish_all(rt, mailbox, post, under),
            Err((back, _)) => {
                envelope = back;
                thread::yield_now();
            }
        }
    }
    unreachable!()
}

// Goes on with an envelope that is on its way until it has arrived. Between two calls another
// thread may run, and slots may become free.
fn finish_all(rt: &impl Wait, mailbox: &Mailbox, post: &mut Post, under: Under)
    requires owes { IsOwing mailbox.now under post.old }
    ensures rest { IsAtRest mailbox.now post.new }
{
    let mut under = under;
    for _ in rt.forever() {
        match mailbox.post_finish(post, under) {
            Placed::Under(again) => {
                under = again;
                thread::yield_now();
            }
            Placed::Sent(_) | Placed::Left(_) => return,
        }
    }
    unreachable!()
}

// Sends a letter with this word, for which there is room, and waits for its acknowledgement.
fn send_one(rt: &(impl Abort + Wait), mailbox: &Mailbox, post: &mut Post, word: u64, patience: u32)
    requires rest { IsAtRest mailbox.now post.old }
    ensures rest { IsAtRest mailbox.now post.new }
{
    let envelope = obtain(rt, mailbox, post, patience);
    let Ok(number) = mailbox.send(rt, post, envelope, word) else {
        panic!(rt; "there is room for each envelope's letter");
    };
    assert!(rt; number == word);
    for _ in rt.forever() {
        if let Some(envelope) = mailbox.reclaim(rt, post) {
            give_back(rt, mailbox, post, envelope);
            return;
        }
        thread::yield_now();
    }
    unreachable!()
}

/// Sends so many letters, each with its number as its word.
pub fn send_all(
    rt: &(impl Abort + Wait),
    mailbox: &Mailbox,
    given: Post,
    letters: u64,
    patience: u32,
) -> Post
    requires rest { IsAtRest mailbox.now given }
    ensures rest { IsAtRest mailbox.now result }
{
    let mut post = given;
    for word in 0..letters {
        send_one(rt, mailbox, &mut post, word, patience);
    }
    post
}
