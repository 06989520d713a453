//! Eight posts in threads of their own, beside the desk. Every second one soon leaves the line, and
//! comes again.

ghost use Rattle.std.specs.Thread.{IsSync};
ghost use Rattle.cqs_mailbox.specs.Mailboxes.{IsDeskOf};
ghost use Rattle.cqs_test_mailbox.specs.Posts.{AreAtRest, AreFourAtRest};

use crate::crews::{IMPATIENT, Pair, hire, take_in_two, two};
use crate::desks::{find_empty, receive_all};
use cqs_mailbox::{Desk, Mailbox};
use std::alloc::Global;
use std::process::Abort;
use std::sync::Wait;
use std::test::Fail;
use std::thread::{self, Threads};

/// Four posts.
type Four = (Pair, Pair);

/// Each post sends so many letters.
const LETTERS: u64 = 25;

/// So many calls for room there may be.
const LIMIT: u64 = 1 << 36;

// The desk makes two posts.
fn hire_two(rt: &impl Abort, alloc: Global, mailbox: &Mailbox, desk: &mut Desk) -> Pair
    requires desk { IsDeskOf mailbox.now desk.old }
    ensures desk { IsDeskOf mailbox.now desk.new }
    ensures rest { AreAtRest mailbox.now result }
{
    let first = hire(rt, alloc, mailbox, desk);
    let second = hire(rt, alloc, mailbox, desk);
    (first, second)
}

// It makes four.
fn hire_four(rt: &impl Abort, alloc: Global, mailbox: &Mailbox, desk: &mut Desk) -> Four
    requires desk { IsDeskOf mailbox.now desk.old }
    ensures desk { IsDeskOf mailbox.now desk.new }
    ensures rest { AreFourAtRest mailbox.now result }
{
    let first = hire_two(rt, alloc, mailbox, desk);
    let second = hire_two(rt, alloc, mailbox, desk);
    (first, second)
}

// Four posts send their letters.
fn four<R: Threads + Wait + Abort + Sync>(rt: &R, mailbox: &Mailbox, posts: Four) -> Four
    requires rest { AreFourAtRest mailbox.now posts }
    ensures rest { AreFourAtRest mailbox.now result }
{
    let (first, second) = posts;
    thread::join(
        rt,
        || -> Pair
            requires { IsSync R.row × AreAtRest mailbox.now first }
            ensures { AreAtRest mailbox.entry.now result }
        { two(rt, mailbox, first, LETTERS, IMPATIENT) },
        || -> Pair
            requires { IsSync R.row × AreAtRest mailbox.now second }
            ensures { AreAtRest mailbox.entry.now result }
        { two(rt, mailbox, second, LETTERS, IMPATIENT) },
    )
}

// Eight do.
fn eight<R: Threads + Wait + Abort + Sync>(
    rt: &R,
    mailbox: &Mailbox,
    first: Four,
    second: Four,
) -> (Four, Four)
    requires first { AreFourAtRest mailbox.now first }
    requires second { AreFourAtRest mailbox.now second }
    ensures first { AreFourAtRest mailbox.now result.0 }
    ensures second { AreFourAtRest mailbox.now result.1 }
{
    thread::join(
        rt,
        || -> Four
            requires { IsSync R.row × AreFourAtRest mailbox.now first }
            ensures { AreFourAtRest mailbox.entry.now result }
        { four(rt, mailbox, first) },
        || -> Four
            requires { IsSync R.row × AreFourAtRest mailbox.now second }
            ensures { AreFourAtRest mailbox.entry.now result }
        { four(rt, mailbox, second) },
    )
}

// Four posts are met.
fn take_in_four(rt: &impl Abort, mailbox: &Mailbox, desk: &mut Desk, posts: Four)
    requires desk { IsDeskOf mailbox.now desk.old }
    requires rest { AreFourAtRest mailbox.now posts }
    ensures desk { IsDeskOf mailbox.now desk.new }
{
    let (first, second) = posts;
    take_in_two(rt, mailbox, desk, first);
    take_in_two(rt, mailbox, desk, second);
}

// Eight posts beside the desk, which meets them then and finds nothing more.
fn run_eight<R: Threads + Wait + Abort + Sync>(
    rt: &R,
    mailbox: &Mailbox,
    desk: Desk,
    first: Four,
    second: Four,
    numbers: Vec<u64>,
)
    requires desk { IsDeskOf mailbox.now desk }
    requires first { AreFourAtRest mailbox.now first }
    requires second { AreFourAtRest mailbox.now second }
{
    let ((first, second), mut desk) = thread::join(
        rt,
        || -> (Four, Four)
            requires { IsSync R.row × (AreFourAtRest mailbox.now first
                × AreFourAtRest mailbox.now second) }
            ensures { AreFourAtRest mailbox.entry.now result.0
                × AreFourAtRest mailbox.entry.now result.1 }
        { eight(rt, mailbox, first, second) },
        || receive_all(rt, mailbox, desk, 8 * LETTERS, numbers),
    );
    take_in_four(rt, mailbox, &mut desk, first);
    take_in_four(rt, mailbox, &mut desk, second);
    find_empty(rt, mailbox, &mut desk);
}

// The same through a mailbox of so much room.
fn run<R: Threads + Wait + Abort + Sync>(rt: &R, alloc: Global, room: u32) -> Result<(), Fail> {
    let (mailbox, mut desk, zero) = Mailbox::new(alloc, room, 9, LIMIT)?;
    let one = hire(rt, alloc, &mailbox, &mut desk);
    let pair = hire_two(rt, alloc, &mailbox, &mut desk);
    let second = hire_four(rt, alloc, &mailbox, &mut desk);
    let numbers = Vec::from_elem(alloc, 0u64, 8)?;
    run_eight(rt, &mailbox, desk, ((zero, one), pair), second, numbers);
    Ok(())
}

#[test]
fn eight_posts_and_one_envelope(rt: HostRuntime) -> Result<(), Fail> {
    run(&rt, rt.alloc(), 1)
}

#[test]
fn eight_posts_and_four_envelopes(rt: HostRuntime) -> Result<(), Fail> {
    run(&rt, rt.alloc(), 4)
}

#[test]
fn eight_posts_and_as_many_envelopes_as_can_be(rt: HostRuntime) -> Result<(), Fail> {
    run(&rt, rt.alloc(), 4096)
}
