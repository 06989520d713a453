//! Two posts in threads of their own, beside the desk. Both wait for their turn in line, or one of
//! them soon leaves it.

ghost use Rattle.std.specs.Thread.{IsSync};
ghost use Rattle.cqs_mailbox.specs.Mailboxes.{IsDeskOf};
ghost use Rattle.cqs_test_mailbox.specs.Posts.{AreAtRest, IsAtRest};

use crate::desks::{find_empty, receive_all, take_in};
use crate::posts::send_all;
use cqs_mailbox::{Desk, Mailbox, Post};
use std::alloc::Global;
use std::process::Abort;
use std::sync::Wait;
use std::test::Fail;
use std::thread::{self, Threads};

/// Two posts.
pub type Pair = (Post, Post);

/// So many calls for room there may be.
const LIMIT: u64 = 1 << 36;

/// A post that leaves the line does so after two looks at first.
pub const IMPATIENT: u32 = 2;

/// The desk makes a post.
pub fn hire(rt: &impl Abort, alloc: Global, mailbox: &Mailbox, desk: &mut Desk) -> Post
    requires desk { IsDeskOf mailbox.now desk.old }
    ensures desk { IsDeskOf mailbox.now desk.new }
    ensures rest { IsAtRest mailbox.now result }
{
    let Ok(post) = mailbox.split(alloc, desk) else {
        panic!(rt; "so many posts may be made");
    };
    post
}

/// Two posts send so many letters each. The second one looks so often before it leaves the line.
pub fn two<R: Threads + Wait + Abort + Sync>(
    rt: &R,
    mailbox: &Mailbox,
    pair: Pair,
    letters: u64,
    patience: u32,
) -> Pair
    requires rest { AreAtRest mailbox.now pair }
    ensures rest { AreAtRest mailbox.now result }
{
    let (first, second) = pair;
    thread::join(
        rt,
        || send_all(rt, mailbox, first, letters, u32::MAX),
        || send_all(rt, mailbox, second, letters, patience),
    )
}

/// Two posts are met.
pub fn take_in_two(rt: &impl Abort, mailbox: &Mailbox, desk: &mut Desk, pair: Pair)
    requires desk { IsDeskOf mailbox.now desk.old }
    requires rest { AreAtRest mailbox.now pair }
    ensures desk { IsDeskOf mailbox.now desk.new }
{
    let (first, second) = pair;
    take_in(rt, mailbox, desk, first);
    take_in(rt, mailbox, desk, second);
}

// Two posts beside the desk, which meets them then and finds nothing more.
fn run_two<R: Threads + Wait + Abort + Sync>(
    rt: &R,
    mailbox: &Mailbox,
    desk: Desk,
    pair: Pair,
    letters: u64,
    patience: u32,
    numbers: Vec<u64>,
)
    requires desk { IsDeskOf mailbox.now desk }
    requires rest { AreAtRest mailbox.now pair }
{
    let all = letters.saturating_mul(2);
    let (pair, mut desk) = thread::join(
        rt,
        || -> Pair
            requires { IsSync R.row × AreAtRest mailbox.now pair }
            ensures { AreAtRest mailbox.entry.now result }
        { two(rt, mailbox, pair, letters, patience) },
        || receive_all(rt, mailbox, desk, all, numbers),
    );
    take_in_two(rt, mailbox, &mut desk, pair);
    find_empty(rt, mailbox, &mut desk);
}

// The same through a mailbox of so much room.
fn run<R: Threads + Wait + Abort + Sync>(
    rt: &R,
    alloc: Global,
    sizes: (u32, u64),
    letters: u64,
    patience: u32,
) -> Result<(), Fail> {
    let (room, limit) = sizes;
    let (mailbox, mut desk, first) = Mailbox::new(alloc, room, 3, limit)?;
    let second = hire(rt, alloc, &mailbox, &mut desk);
    let numbers = Vec::from_elem(alloc, 0u64, 2)?;
    run_two(
        rt,
        &mailbox,
        desk,
        (first, second),
        letters,
        patience,
        numbers,
    );
    Ok(())
}

#[test]
fn two_posts_beside_the_desk(rt: HostRuntime) -> Result<(), Fail> {
    run(&rt, rt.alloc(), (4, 256), 100, u32::MAX)
}

#[test]
fn a_post_that_leaves_the_line(rt: HostRuntime) -> Result<(), Fail> {
    run(&rt, rt.alloc(), (1, LIMIT), 10, IMPATIENT)
}
