//! The acknowledgements of one sender, through a queue with room for one.

ghost use Rattle.std.specs.Prelude.{◌≡◌};
ghost use Rattle.crossbeam_queue.specs.Passes.{view, IsPassOf};
ghost use Rattle.cqs_mailbox.specs.Tallies.{IsDesk, IsPost};

use cqs_mailbox::replies::{Replies, RepliesPass, give, join, open, part, take};
use std::process::Abort;
use std::sync::Wait;
use std::test::Fail;

// The desk gives one, for which there is room or not.
fn acknowledge(rt: &(impl Abort + Wait), replies: &Replies, desk: &mut RepliesPass, room: bool)
    requires queue { IsPassOf replies.now desk.old }
    requires desk { IsDesk (view desk.old) }
    ensures queue { IsPassOf replies.now desk.new }
    ensures desk { IsDesk (view desk.new) }
{
    let given = give(rt, replies, desk).is_ok();
    assert!(rt; given == room);
}

// The post takes one, if one is there.
fn reclaim(rt: &(impl Abort + Wait), replies: &Replies, post: &mut RepliesPass, there: bool)
    requires queue { IsPassOf replies.now post.old }
    requires post { IsPost (view post.old) }
    ensures queue { IsPassOf replies.now post.new }
    ensures post { IsPost (view post.new) }
{
    let taken = take(rt, replies, post).is_some();
    assert!(rt; taken == there);
}

#[test]
fn acknowledgements_of_one_sender(rt: HostRuntime) -> Result<(), Fail> {
    let (replies, mut desk) = open(rt.alloc(), 1)?;
    let mut post = part(&replies, &mut desk);
    reclaim(&rt, &replies, &mut post, false);
    acknowledge(&rt, &replies, &mut desk, true);
    acknowledge(&rt, &replies, &mut desk, false);
    reclaim(&rt, &replies, &mut post, true);
    acknowledge(&rt, &replies, &mut desk, true);
    join(&replies, &mut desk, post);
    acknowledge(&rt, &replies, &mut desk, false);
    Ok(())
}
