//! A million letters of one post, on one thread: each is received and acknowledged before the next
//! one is sent, with the envelope that came back, or with one for which the post asked anew.

ghost use Rattle.cqs_mailbox.specs.Mailboxes.{IsDeskOf};
ghost use Rattle.cqs_test_mailbox.specs.Posts.{HasSpare, IsAtRest};

use crate::desks::{find_empty, take_in};
use crate::one_envelope::{acknowledge, get_room, letter, receive, send};
use crate::posts::give_back;
use cqs_mailbox::{Desk, Envelope, Mailbox, Post};
use std::process::Abort;
use std::sync::Wait;
use std::test::Fail;

const LETTERS: u64 = 1_000_000;

// The post has its envelope back.
fn reclaim(rt: &(impl Abort + Wait), mailbox: &Mailbox, post: &mut Post) -> Envelope
    requires rest { IsAtRest mailbox.now post.old }
    ensures spare { HasSpare mailbox.now result post.new }
{
    let Some(envelope) = mailbox.reclaim(rt, post) else {
        panic!(rt; "the letter was acknowledged");
    };
    envelope
}

// The letter of this number goes from the post to the desk, and its envelope comes back.
fn deliver(
    rt: &(impl Abort + Wait),
    mailbox: &Mailbox,
    desk: &mut Desk,
    post: &mut Post,
    envelope: Envelope,
    number: u64,
) -> Envelope
    requires desk { IsDeskOf mailbox.now desk.old }
    requires spare { HasSpare mailbox.now envelope post.old }
    ensures desk { IsDeskOf mailbox.now desk.new }
    ensures spare { HasSpare mailbox.now result post.new }
{
    send(rt, mailbox, post, envelope, (number, number));
    receive(rt, mailbox, desk, letter(number, number));
    acknowledge(rt, mailbox, desk, 0);
    reclaim(rt, mailbox, post)
}

// All letters go so. Then the post gives its envelope back and is met, and nothing is left.
fn deliver_all(rt: &(impl Abort + Wait), mailbox: &Mailbox, given: Desk, first: Post)
    requires desk { IsDeskOf mailbox.now given }
    requires rest { IsAtRest mailbox.now first }
{
    let mut desk = given;
    let mut post = first;
    let mut envelope = get_room(rt, mailbox, &mut post);
    for number in 0..LETTERS {
        envelope = deliver(rt, mailbox, &mut desk, &mut post, envelope, number);
    }
    give_back(rt, mailbox, &mut post, envelope);
    take_in(rt, mailbox, &mut desk, post);
    find_empty(rt, mailbox, &mut desk);
}

// All letters go so, but the post gives the envelope back after each and asks for room again.
fn deliver_anew(rt: &(impl Abort + Wait), mailbox: &Mailbox, given: Desk, first: Post)
    requires desk { IsDeskOf mailbox.now given }
    requires rest { IsAtRest mailbox.now first }
{
    let mut desk = given;
    let mut post = first;
    for number in 0..LETTERS {
        let envelope = get_room(rt, mailbox, &mut post);
        let envelope = deliver(rt, mailbox, &mut desk, &mut post, envelope, number);
        give_back(rt, mailbox, &mut post, envelope);
    }
    take_in(rt, mailbox, &mut desk, post);
    find_empty(rt, mailbox, &mut desk);
}

#[test]
fn a_million_letters(rt: HostRuntime) -> Result<(), Fail> {
    let (mailbox, desk, post) = Mailbox::new(rt.alloc(), 1, 2, 1)?;
    deliver_all(&rt, &mailbox, desk, post);
    Ok(())
}

// Their calls for room are as many, and the pool has twelve slots of 32 calls each.
#[test]
fn a_million_calls_for_room(rt: HostRuntime) -> Result<(), Fail> {
    let (mailbox, desk, post) = Mailbox::new(rt.alloc(), 1, 2, 1 << 36)?;
    deliver_anew(&rt, &mailbox, desk, post);
    Ok(())
}
