//! A mailbox with one envelope, call by call.

ghost use Rattle.std.specs.Prelude.{◌≡◌};
ghost use Rattle.cqs_mailbox.specs.Mailboxes.{IsDeskOf, IsDue};
ghost use Rattle.cqs_test_mailbox.specs.Posts.{HasSpare, IsAtRest, IsWaiting};

use crate::desks::{find_empty, take_in};
use cqs_mailbox::{
    Desk, Envelope, Letter, Mailbox, Post, PostWait, Received, Room, RoomPolled, SplitError,
};
use cqs_pool::Placed;
use cqs_rule::{MakeError, MeetError};
use std::process::Abort;
use std::sync::Wait;
use std::test::Fail;

/// The envelope is free.
pub fn get_room(rt: &impl Abort, mailbox: &Mailbox, post: &mut Post) -> Envelope
    requires rest { IsAtRest mailbox.now post.old }
    ensures spare { HasSpare mailbox.now result post.new }
{
    let Ok(Room::Got(envelope)) = mailbox.room(post) else {
        panic!(rt; "an envelope is free");
    };
    envelope
}

/// It isn't, and the post waits under this number.
pub fn wait_for_room(rt: &impl Abort, mailbox: &Mailbox, post: &mut Post, number: u64) -> PostWait
    requires rest { IsAtRest mailbox.now post.old }
    ensures waits { IsWaiting mailbox.now result post.new }
{
    let Ok(Room::Later(wait)) = mailbox.room(post) else {
        panic!(rt; "no envelope is free");
    };
    assert!(rt; wait.number() == number);
    wait
}

/// The post sends the letter of this number.
pub fn send(
    rt: &(impl Abort + Wait),
    mailbox: &Mailbox,
    post: &mut Post,
    envelope: Envelope,
    letter: (u64, u64),
)
    requires spare { HasSpare mailbox.now envelope post.old }
    ensures rest { IsAtRest mailbox.now post.new }
{
    let (number, word) = letter;
    let Ok(sent) = mailbox.send(rt, post, envelope, word) else {
        panic!(rt; "there is room for the letter");
    };
    assert!(rt; sent == number);
}

/// The desk receives this letter.
pub fn receive(rt: &(impl Abort + Wait), mailbox: &Mailbox, desk: &mut Desk, letter: Letter)
    requires desk { IsDeskOf mailbox.now desk.old }
    ensures desk { IsDeskOf mailbox.now desk.new }
    ensures due { IsDue letter.sender desk.new }
{
    let Received::Got(received) = mailbox.receive(rt, desk) else {
        panic!(rt; "a letter is there");
    };
    if received != letter {
        panic!(rt; "it is the next of its sender");
    }
}

// No letter is there, and one of this sender is still to be acknowledged.
fn receive_none(rt: &(impl Abort + Wait), mailbox: &Mailbox, desk: &mut Desk, sender: u32)
    requires desk { IsDeskOf mailbox.now desk.old }
    requires due { IsDue sender desk.old }
    ensures desk { IsDeskOf mailbox.now desk.new }
    ensures due { IsDue sender desk.new }
{
    let Received::Empty = mailbox.receive(rt, desk) else {
        panic!(rt; "all is received");
    };
}

/// A letter of this sender is acknowledged.
pub fn acknowledge(rt: &(impl Abort + Wait), mailbox: &Mailbox, desk: &mut Desk, sender: u32)
    requires desk { IsDeskOf mailbox.now desk.old }
    requires due { IsDue sender desk.old }
    ensures desk { IsDeskOf mailbox.now desk.new }
{
    let done = mailbox.acknowledge(rt, desk, sender).is_ok();
    assert!(rt; done);
}

// The envelope goes to the post's own wait of this number, and comes by it.
fn give_to_wait(
    rt: &impl Abort,
    mailbox: &Mailbox,
    post: &mut Post,
    envelope: Envelope,
    wait: PostWait,
    number: u64,
) -> Envelope
    requires spare { HasSpare mailbox.now envelope post.old }
    requires waits { IsWaiting mailbox.now wait post.old }
    ensures spare { HasSpare mailbox.now result post.new }
{
    let Ok(Placed::Sent(sent)) = mailbox.post_back(post, envelope) else {
        panic!(rt; "the post waits");
    };
    assert!(rt; sent == number);
    let RoomPolled::Granted(envelope) = mailbox.poll(post, wait) else {
        panic!(rt; "the envelope was sent to the wait");
    };
    envelope
}

// The post waits, and has its envelope back.
fn reclaim_waiting(
    rt: &(impl Abort + Wait),
    mailbox: &Mailbox,
    post: &mut Post,
    wait: PostWait,
) -> (Envelope, PostWait)
    requires waits { IsWaiting mailbox.now wait post.old }
    ensures spare { HasSpare mailbox.now result.0 post.new }
    ensures waits { IsWaiting mailbox.now result.1 post.new }
{
    let Some(envelope) = mailbox.reclaim(rt, post) else {
        panic!(rt; "the letter was acknowledged");
    };
    (envelope, wait)
}

// The post waits, and none of its letters was acknowledged.
fn reclaim_in_vain(
    rt: &(impl Abort + Wait),
    mailbox: &Mailbox,
    post: &mut Post,
    wait: PostWait,
) -> PostWait
    requires waits { IsWaiting mailbox.now wait post.old }
    ensures waits { IsWaiting mailbox.now result post.new }
{
    if mailbox.reclaim(rt, post).is_some() {
        panic!(rt; "no letter was acknowledged");
    }
    wait
}

/// A letter of the first post.
pub fn letter(number: u64, word: u64) -> Letter
    ensures { result.sender ≡ 0 }
{
    Letter {
        sender: 0,
        number,
        word,
    }
}

#[test]
fn a_mailbox_with_one_envelope(rt: HostRuntime) -> Result<(), Fail> {
    let (mailbox, mut desk, mut post) = Mailbox::new(rt.alloc(), 1, 2, 8)?;
    let envelope = get_room(&rt, &mailbox, &mut post);
    send(&rt, &mailbox, &mut post, envelope, (0, 7));
    let wait = wait_for_room(&rt, &mailbox, &mut post, 1);
    receive(&rt, &mailbox, &mut desk, letter(0, 7));
    receive_none(&rt, &mailbox, &mut desk, 0);
    let wait = reclaim_in_vain(&rt, &mailbox, &mut post, wait);
    acknowledge(&rt, &mailbox, &mut desk, 0);
    let (envelope, wait) = reclaim_waiting(&rt, &mailbox, &mut post, wait);
    let envelope = give_to_wait(&rt, &mailbox, &mut post, envelope, wait, 1);
    send(&rt, &mailbox, &mut post, envelope, (1, 8));
    receive(&rt, &mailbox, &mut desk, letter(1, 8));
    Ok(())
}

#[test]
fn a_post_that_waits_is_not_met(rt: HostRuntime) -> Result<(), Fail> {
    let (mailbox, mut desk, mut post) = Mailbox::new(rt.alloc(), 1, 2, 8)?;
    assert!(rt; post.sender() == 0);
    let Err(SplitError::Crowd) = mailbox.split(rt.alloc(), &mut desk) else {
        panic!(rt; "the desk and one post have a pass each");
    };
    let envelope = get_room(&rt, &mailbox, &mut post);
    send(&rt, &mailbox, &mut post, envelope, (0, 7));
    let _wait = wait_for_room(&rt, &mailbox, &mut post, 1);
    let Err((post, error)) = mailbox.meet(&mut desk, post) else {
        panic!(rt; "it has a wait");
    };
    assert!(rt; error == MeetError::Busy);
    assert!(rt; post.sender() == 0);
    Ok(())
}

#[test]
fn letters_of_a_post_that_was_met(rt: HostRuntime) -> Result<(), Fail> {
    let (mailbox, mut desk, mut post) = Mailbox::new(rt.alloc(), 2, 3, 8)?;
    let Ok(other) = mailbox.split(rt.alloc(), &mut desk) else {
        panic!(rt; "two posts may be made");
    };
    assert!(rt; other.sender() == 1);
    let envelope = get_room(&rt, &mailbox, &mut post);
    send(&rt, &mailbox, &mut post, envelope, (0, 7));
    let envelope = get_room(&rt, &mailbox, &mut post);
    send(&rt, &mailbox, &mut post, envelope, (1, 8));
    receive(&rt, &mailbox, &mut desk, letter(0, 7));
    take_in(&rt, &mailbox, &mut desk, post);
    receive(&rt, &mailbox, &mut desk, letter(1, 8));
    find_empty(&rt, &mailbox, &mut desk);
    let mut other = other;
    let _wait = wait_for_room(&rt, &mailbox, &mut other, 2);
    Ok(())
}

#[test]
fn mailboxes_out_of_range(rt: HostRuntime) {
    for (room, passes, limit) in [
        (0, 2, 8),
        (4097, 2, 8),
        (1, 1, 8),
        (1, 33, 8),
        (1, u32::MAX, 8),
        (u32::MAX, 2, 8),
        (1, 2, 0),
        (1, 2, 68_719_476_737),
    ] {
        let made = Mailbox::new(rt.alloc(), room, passes, limit);
        assert!(rt; made.err() == Some(MakeError::BadConfig));
    }
}
