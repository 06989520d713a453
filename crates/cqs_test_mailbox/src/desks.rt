//! What the desk of these tests does: it receives letters, each of which must be the next of its
//! sender, and acknowledges them.

ghost use Rattle.cqs_mailbox.specs.Mailboxes.{IsDeskOf};
ghost use Rattle.cqs_test_mailbox.specs.Posts.{IsAtRest};

use cqs_mailbox::{Desk, Mailbox, Post, Received};
use std::process::Abort;
use std::sync::Wait;
use std::thread;

/// Receives so many letters of these senders, and acknowledges each at once. The next number of
/// each sender stands at its place.
pub fn receive_all(
    rt: &(impl Abort + Wait),
    mailbox: &Mailbox,
    given: Desk,
    letters: u64,
    mut numbers: Vec<u64>,
) -> Desk
    requires desk { IsDeskOf mailbox.now given }
    ensures desk { IsDeskOf mailbox.now result }
{
    let mut desk = given;
    let mut received = 0u64;
    for _ in rt.forever() {
        if received >= letters {
            break;
        }
        match mailbox.receive(rt, &mut desk) {
            Received::Got(letter) => {
                let Some(next) = numbers.get_mut(letter.sender as usize) else {
                    panic!(rt; "no such post was made");
                };
                assert!(rt; letter.number == *next && letter.word == *next);
                *next = next.saturating_add(1);
                let done = mailbox.acknowledge(rt, &mut desk, letter.sender).is_ok();
                assert!(rt; done);
                received = received.saturating_add(1);
            }
            Received::Empty => thread::yield_now(),
        }
    }
    desk
}

/// Takes in a post that waits for nothing.
pub fn take_in(rt: &impl Abort, mailbox: &Mailbox, desk: &mut Desk, post: Post)
    requires desk { IsDeskOf mailbox.now desk.old }
    requires rest { IsAtRest mailbox.now post }
    ensures desk { IsDeskOf mailbox.now desk.new }
{
    let met = mailbox.meet(desk, post).is_ok();
    assert!(rt; met);
}

/// No letter is left.
pub fn find_empty(rt: &(impl Abort + Wait), mailbox: &Mailbox, desk: &mut Desk)
    requires desk { IsDeskOf mailbox.now desk.old }
    ensures desk { IsDeskOf mailbox.now desk.new }
{
    let Received::Empty = mailbox.receive(rt, desk) else {
        panic!(rt; "all is received");
    };
}
