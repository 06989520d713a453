//! Rounds of a mailbox: a letter goes from a post to the desk, which acknowledges it, and its
//! envelope comes back. On one thread, and by posts in threads of their own beside the desk.

ghost use Rattle.std.specs.Prelude.{All, IfOk, IfSome, IsTrue};
ghost use Rattle.std.specs.Thread.{IsSync};
ghost use Rattle.cqs_mailbox.specs.Callers.{HasSpare, IsAtRest, IsWaiting};
ghost use Rattle.cqs_mailbox.specs.Calls.{KeepsWaits};
ghost use Rattle.cqs_mailbox.specs.Mailboxes.{IsDeskOf, line_view};

use cqs_bench_rows::nanoseconds_since;
use cqs_mailbox::{Desk, Envelope, Mailbox, Post, PostWait, Received, Room, RoomPolled};
use cqs_pool::Placed;
use cqs_waiter::Looks;
use std::alloc::Global;
use std::rt::Clock;
use std::sync::Wait as MayWait;
use std::thread::{self, Threads};
use std::time::Instant;

/// So many letters may be on their way, as in the channels of the peers.
const ROOM: u32 = 64;

/// So many calls for room there may be.
const LIMIT: u64 = 1 << 36;

/// What each letter says.
const WORD: u64 = 1;

/// A post, and how many of its envelopes are out with letters.
#[derive(Drop)]
struct Sender {
    post: Post,
    out: u64,
}

// Gives an envelope back. It answers whether it is free, or went to the first of the line.
#[inline(always)]
fn give_back(mailbox: &Mailbox, post: &mut Post, envelope: Envelope) -> bool
    requires spare { HasSpare mailbox.now envelope post.old }
    ensures rest { IsTrue result → IsAtRest mailbox.now post.new }
    ensures waits { KeepsWaits (line_view post.old) (line_view post.new) }
{
    matches!(
        mailbox.post_back(post, envelope),
        Ok(Placed::Sent(_) | Placed::Left(_))
    )
}

// Sends a letter with this envelope. It answers whether there was room for it.
#[inline(always)]
fn send<R: MayWait>(rt: &R, mailbox: &Mailbox, post: &mut Post, envelope: Envelope) -> bool
    requires spare { HasSpare mailbox.now envelope post.old }
    ensures rest { IsAtRest mailbox.now post.new }
{
    mailbox.send(rt, post, envelope, WORD).is_ok()
}

// Receives a letter, if one is there, and acknowledges it.
#[inline(always)]
fn receive<R: MayWait>(rt: &R, mailbox: &Mailbox, desk: &mut Desk) -> bool
    requires desk { IsDeskOf mailbox.now desk.old }
    ensures desk { IsDeskOf mailbox.now desk.new }
{
    match mailbox.receive(rt, desk) {
        Received::Got(letter) => {
            letter.word == WORD && mailbox.acknowledge(rt, desk, letter.sender).is_ok()
        }
        Received::Empty => false,
    }
}

// Room is free: a letter goes to the desk, and its envelope to the post and back to the pool.
#[inline(always)]
fn free_round<R: MayWait>(rt: &R, mailbox: &Mailbox, desk: &mut Desk, post: &mut Post) -> bool
    requires desk { IsDeskOf mailbox.now desk.old }
    requires rest { IsAtRest mailbox.now post.old }
    ensures desk { IsDeskOf mailbox.now desk.new }
    ensures rest { IsTrue result → IsAtRest mailbox.now post.new }
{
    let Ok(Room::Got(envelope)) = mailbox.room(post) else {
        return false;
    };
    if !send(rt, mailbox, post, envelope) {
        return false;
    }
    if !receive(rt, mailbox, desk) {
        return false;
    }
    match mailbox.reclaim(rt, post) {
        Some(envelope) => give_back(mailbox, post, envelope),
        None => false,
    }
}

// So many of them.
#[inline(always)]
fn free_rounds<R: MayWait>(
    rt: &R,
    mailbox: &Mailbox,
    desk: &mut Desk,
    post: &mut Post,
    count: u64,
) -> bool
    requires desk { IsDeskOf mailbox.now desk.old }
    requires rest { IsAtRest mailbox.now post.old }
{
    for _ in 0..count {
        if !free_round(rt, mailbox, desk, post) {
            return false;
        }
    }
    true
}

// An envelope of a letter that was acknowledged.
#[inline(always)]
fn reclaim<R: MayWait>(rt: &R, mailbox: &Mailbox, sender: &mut Sender) -> Option<Envelope>
    requires rest { IsAtRest mailbox.now sender.old.post }
    ensures rest { IsAtRest mailbox.now sender.new.post }
    ensures spare { IfSome result (λ envelope. HasSpare mailbox.now envelope sender.new.post) }
    ensures waits { KeepsWaits (line_view sender.old.post) (line_view sender.new.post) }
{
    match mailbox.reclaim(rt, &mut sender.post) {
        Some(envelope) => {
            sender.out = sender.out.saturating_sub(1);
            Some(envelope)
        }
        None => None,
    }
}

// Puts one such envelope back into the pool, if there is one, where other posts may wait for it.
#[inline(always)]
fn give_one<R: MayWait>(rt: &R, mailbox: &Mailbox, sender: &mut Sender) -> bool
    requires rest { IsAtRest mailbox.now sender.old.post }
    ensures rest { IsTrue result → IsAtRest mailbox.now sender.new.post }
    ensures waits { KeepsWaits (line_view sender.old.post) (line_view sender.new.post) }
{
    match reclaim(rt, mailbox, sender) {
        Some(envelope) => give_back(mailbox, &mut sender.post, envelope),
        None => true,
    }
}

// Looks at the wait until it was served, and puts back what is acknowledged meanwhile.
fn look_on<R: MayWait>(
    rt: &R,
    mailbox: &Mailbox,
    sender: &mut Sender,
    wait: PostWait,
) -> Option<Envelope>
    requires waits { IsWaiting mailbox.now wait sender.old.post }
    ensures spare { IfSome result (λ envelope. HasSpare mailbox.now envelope sender.new.post) }
{
    let mut wait = wait;
    let mut looks = Looks::new();
    for _ in 0..u64::MAX {
        if !give_one(rt, mailbox, sender) {
            return None;
        }
        match mailbox.poll(&mut sender.post, wait) {
            RoomPolled::Granted(envelope) => return Some(envelope),
            RoomPolled::Pending(again) => wait = again,
        }
        looks.go_on();
    }
    None
}

// An envelope of a letter that was acknowledged, or else one of the pool, for which it may wait.
fn come_by<R: MayWait>(rt: &R, mailbox: &Mailbox, sender: &mut Sender) -> Option<Envelope>
    requires rest { IsAtRest mailbox.now sender.old.post }
    ensures spare { IfSome result (λ envelope. HasSpare mailbox.now envelope sender.new.post) }
{
    if let Some(envelope) = reclaim(rt, mailbox, sender) {
        return Some(envelope);
    }
    match mailbox.room(&mut sender.post) {
        Ok(Room::Got(envelope)) => Some(envelope),
        Ok(Room::Later(wait)) => look_on(rt, mailbox, sender, wait),
        Err(_) => None,
    }
}

// One letter more.
fn send_one<R: MayWait>(rt: &R, mailbox: &Mailbox, sender: &mut Sender) -> bool
    requires rest { IsAtRest mailbox.now sender.old.post }
    ensures rest { IsTrue result → IsAtRest mailbox.now sender.new.post }
{
    let Some(envelope) = come_by(rt, mailbox, sender) else {
        return false;
    };
    sender.out = sender.out.saturating_add(1);
    send(rt, mailbox, &mut sender.post, envelope)
}

// Puts all its envelopes back, so that no other post waits for them.
fn give_all<R: MayWait>(rt: &R, mailbox: &Mailbox, sender: &mut Sender) -> bool
    requires rest { IsAtRest mailbox.now sender.old.post }
{
    let mut looks = Looks::new();
    for _ in 0..u64::MAX {
        if sender.out == 0 {
            return true;
        }
        if !give_one(rt, mailbox, sender) {
            return false;
        }
        looks.go_on();
    }
    false
}

// So many letters of one post. It answers whether all went as they should.
fn send_all<R: MayWait>(rt: &R, mailbox: &Mailbox, post: Post, letters: u64) -> bool
    requires rest { IsAtRest mailbox.now post }
{
    let mut sender = Sender { post, out: 0 };
    for _ in 0..letters {
        if !send_one(rt, mailbox, &mut sender) {
            return false;
        }
    }
    give_all(rt, mailbox, &mut sender)
}

// Looks until a letter is there, and acknowledges it.
fn receive_one<R: MayWait>(rt: &R, mailbox: &Mailbox, desk: &mut Desk) -> bool
    requires desk { IsDeskOf mailbox.now desk.old }
    ensures desk { IsDeskOf mailbox.now desk.new }
{
    let mut looks = Looks::new();
    for _ in 0..u64::MAX {
        if receive(rt, mailbox, desk) {
            return true;
        }
        looks.go_on();
    }
    false
}

// So many letters of all posts.
fn receive_all<R: MayWait>(rt: &R, mailbox: &Mailbox, desk: Desk, letters: u64) -> bool
    requires desk { IsDeskOf mailbox.now desk }
{
    let mut desk = desk;
    for _ in 0..letters {
        if !receive_one(rt, mailbox, &mut desk) {
            return false;
        }
    }
    true
}

// A mailbox for so many posts, its desk, and the first of them.
fn open(alloc: Global, posts: u32) -> anyhow::Result<(Mailbox, Desk, Post)>
    ensures desk { IfOk result (λ made. IsDeskOf made.0 made.1) }
    ensures rest { IfOk result (λ made. IsAtRest made.0 made.2) }
{
    match Mailbox::new(alloc, ROOM, posts.saturating_add(1), LIMIT) {
        Ok(made) => Ok(made),
        Err(_) => anyhow::bail!("no memory for the mailbox"),
    }
}

// A new post.
fn hire_one(alloc: Global, mailbox: &Mailbox, desk: &mut Desk) -> anyhow::Result<Post>
    requires desk { IsDeskOf mailbox.now desk.old }
    ensures desk { IsDeskOf mailbox.now desk.new }
    ensures rest { IfOk result (λ post. IsAtRest mailbox.now post) }
{
    match mailbox.split(alloc, desk) {
        Ok(post) => Ok(post),
        Err(_) => anyhow::bail!("no further post may be made"),
    }
}

// The first post, and so many more.
fn hire(
    alloc: Global,
    mailbox: &Mailbox,
    desk: &mut Desk,
    first: Post,
    more: u32,
) -> anyhow::Result<Vec<Post>>
    requires desk { IsDeskOf mailbox.now desk.old }
    requires rest { IsAtRest mailbox.now first }
    ensures desk { IsDeskOf mailbox.now desk.new }
    ensures rest { IfOk result (λ posts. All (IsAtRest mailbox.now) posts.items) }
{
    let mut posts = Vec::new(alloc);
    posts.push(first)?;
    for _ in 0..more {
        posts.push(hire_one(alloc, mailbox, desk)?)?;
    }
    Ok(posts)
}

// A thread for each post, in which it sends so many letters.
fn send_by_all<R: Threads + MayWait + Sync>(
    rt: &R,
    mailbox: &Mailbox,
    posts: Vec<Post>,
    letters: u64,
) -> bool
    requires rest { All (IsAtRest mailbox.now) posts.items }
{
    let sent = thread::map_vec(
        rt,
        posts,
        &|post: Post| -> bool
            requires { IsAtRest mailbox.now post }
        { send_all(rt, mailbox, post, letters) },
    );
    match sent {
        Ok(each) => each.iter().all(|done| *done),
        Err(_) => false,
    }
}

// So many letters of each post, beside the desk. It answers whether all went as they should.
fn deliver_all<R: Threads + MayWait + Sync>(
    rt: &R,
    mailbox: &Mailbox,
    desk: Desk,
    posts: Vec<Post>,
    letters: u64,
) -> bool
    requires desk { IsDeskOf mailbox.now desk }
    requires rest { All (IsAtRest mailbox.now) posts.items }
{
    let all = letters.saturating_mul(posts.len() as u64);
    let (sent, received) = thread::join(
        rt,
        || -> bool
            requires { IsSync R.row × All (IsAtRest mailbox.now) posts.items }
        { send_by_all(rt, mailbox, posts, letters) },
        || receive_all(rt, mailbox, desk, all),
    );
    sent && received
}

/// The nanoseconds of so many rounds on one thread, on a mailbox of their own.
pub fn time_free<R: Clock + MayWait + AllocGlobal>(rt: &R, count: u64) -> anyhow::Result<u64> {
    let (mailbox, mut desk, mut post) = open(rt.alloc(), 1)?;
    let start = Instant::now(rt)?;
    let done = free_rounds(rt, &mailbox, &mut desk, &mut post, count);
    nanoseconds_since(rt, start, done)
}

/// The nanoseconds of so many letters that the posts share, on a mailbox of their own: a thread is
/// the desk's, and each other one a post's.
#[inline(never)]
pub fn time_crew<R: Clock + Threads + MayWait + Sync + AllocGlobal>(
    rt: &R,
    threads: u32,
    count: u64,
) -> anyhow::Result<u64> {
    let senders = threads.saturating_sub(1).max(1);
    let (mailbox, mut desk, first) = open(rt.alloc(), senders)?;
    let posts = hire(rt.alloc(), &mailbox, &mut desk, first, senders - 1)?;
    let start = Instant::now(rt)?;
    let done = deliver_all(rt, &mailbox, desk, posts, count / u64::from(senders));
    nanoseconds_since(rt, start, done)
}
