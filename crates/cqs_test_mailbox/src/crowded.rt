//! A post that waits so often that no slot is free: it is refused as crowded then, and gives its
//! envelope back still.

ghost use Rattle.cqs_test_mailbox.specs.Posts.{IsAtRest};

use crate::one_envelope::{acknowledge, get_room, letter, receive, send, wait_for_room};
use cqs_mailbox::{Mailbox, Post};
use cqs_pool::Placed;
use cqs_rule::AcquireError;
use std::process::Abort;
use std::sync::Wait;
use std::test::Fail;

/// So many waits are open as the last slot is claimed. There are twelve slots of 32 numbers each,
/// and the first number had the envelope. The 321st number begins an eleventh segment, and then the
/// post has the last slot spare, where it needs two for one wait more.
const WAITS: u64 = 320;

// The post waits under the numbers from 1 to this one.
fn wait_often(rt: &impl Abort, mailbox: &Mailbox, post: &mut Post, last: u64)
    requires rest { IsAtRest mailbox.now post.old }
    ensures rest { IsAtRest mailbox.now post.new }
{
    for before in 0..last {
        let _wait = wait_for_room(rt, mailbox, post, before.saturating_add(1));
    }
}

// No slot is free for one wait more.
fn find_crowded(rt: &impl Abort, mailbox: &Mailbox, post: &mut Post)
    requires rest { IsAtRest mailbox.now post.old }
    ensures rest { IsAtRest mailbox.now post.new }
{
    let Err(AcquireError::Crowded) = mailbox.room(post) else {
        panic!(rt; "no slot is free");
    };
}

// The envelope of a letter that was acknowledged goes to the wait of this number.
fn give_to(rt: &(impl Abort + Wait), mailbox: &Mailbox, post: &mut Post, number: u64)
    requires rest { IsAtRest mailbox.now post.old }
{
    let Some(envelope) = mailbox.reclaim(rt, post) else {
        panic!(rt; "the letter was acknowledged");
    };
    let Ok(Placed::Sent(sent)) = mailbox.post_back(post, envelope) else {
        panic!(rt; "the post waits, and has a slot spare");
    };
    assert!(rt; sent == number);
}

#[test]
fn a_post_that_finds_no_slot_free(rt: HostRuntime) -> Result<(), Fail> {
    let (mailbox, mut desk, mut post) = Mailbox::new(rt.alloc(), 1, 2, 1 << 36)?;
    let envelope = get_room(&rt, &mailbox, &mut post);
    send(&rt, &mailbox, &mut post, envelope, (0, 7));
    wait_often(&rt, &mailbox, &mut post, WAITS);
    find_crowded(&rt, &mailbox, &mut post);
    receive(&rt, &mailbox, &mut desk, letter(0, 7));
    acknowledge(&rt, &mailbox, &mut desk, 0);
    give_to(&rt, &mailbox, &mut post, 1);
    Ok(())
}
