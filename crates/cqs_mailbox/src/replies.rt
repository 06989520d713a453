//! The queue of one sender's acknowledgements under its rule.

ghost use Rattle.std.specs.Prelude.{◌≡◌, ◌<◌, ◌≤◌, IfOk, MatchOption, MatchResult};
ghost use Rattle.crossbeam_queue.specs.Passes.{view, IsPassOf, ruled_capacity};
ghost use Rattle.cqs_mailbox.specs.declared.tally.Tally.TheVariants as tally;
ghost use Rattle.cqs_mailbox.specs.Tallies.{IsDesk, IsPost, IsCovered, WasFound, having_given, having_taken, having_met, given_in};

use crate::tally::Tally;
use crossbeam_queue::protocol::{Join, Lesson, Outcome, Protocol, Split};
use crossbeam_queue::{Pass, RuledArrayQueue};
use std::alloc::{AllocError, Global};
use std::sync::Wait;

/// The rule of the acknowledgements.
pub struct Counted;

impl Protocol<(), Tally> for Counted {
    ghost use Rattle.cqs_mailbox.specs.declared.tally.Tally.TheVariants as tally;
    ghost use Rattle.cqs_mailbox.specs.Tallies.{IsTally};

    ghost holds = { IsTally };

    ghost first = { tally.Both 0 0 };
}

/// The desk's pass is parted in two: one stays with the desk, the other is the new post's.
pub struct Parts;

impl Split<Tally> for Parts {
    ghost use Rattle.cqs_mailbox.specs.Tallies.{desk_part, post_part};

    ghost left = { desk_part };

    ghost right = { post_part };
}

/// The post meets the desk.
pub struct Meets;

impl Join<Tally> for Meets {
    ghost use Rattle.cqs_mailbox.specs.declared.tally.Tally.TheVariants as tally;
    ghost use Rattle.cqs_mailbox.specs.Tallies.{having_met};

    ghost both = { having_met };

    ghost spent = { tally.Gone };
}

/// The desk gives one more, or learns that the queue is full.
pub struct Gives;

impl Outcome<(), Tally> for Gives {
    ghost use Rattle.std.specs.Prelude.{◌≡◌};
    ghost use Rattle.cqs_mailbox.specs.Tallies.{having_given};

    ghost then = { λ v x w. w ≡ having_given v };
}

impl Lesson<(), Tally> for Gives {
    ghost use Rattle.std.specs.Prelude.{◌≤◌, length};
    ghost use Rattle.cqs_mailbox.specs.Tallies.{WasFound, given_in};

    ghost fact = { λ v items. WasFound (length items) v × (length items ≤ given_in v) };
}

/// The post takes one more, or learns that none is there.
pub struct Takes;

impl Outcome<(), Tally> for Takes {
    ghost use Rattle.std.specs.Prelude.{◌≡◌};
    ghost use Rattle.cqs_mailbox.specs.Tallies.{having_taken};

    ghost then = { λ v x w. w ≡ having_taken v };
}

impl Lesson<(), Tally> for Takes {
    ghost use Rattle.std.specs.Prelude.{length};
    ghost use Rattle.cqs_mailbox.specs.Tallies.{WasFound};

    ghost fact = { λ v items. WasFound (length items) v };
}

/// The desk learns that no more was taken than given.
pub struct Compares;

impl Lesson<(), Tally> for Compares {
    ghost use Rattle.cqs_mailbox.specs.Tallies.{IsCovered};

    ghost fact = { λ v items. IsCovered v };
}

/// The queue of one sender's acknowledgements.
pub type Replies = RuledArrayQueue<(), Tally, Counted>;

/// What the desk and the post make their calls on it with.
pub type RepliesPass = Pass<(), Tally>;

/// A queue with room for so many, and its first pass.
pub fn open(alloc: Global, room: usize) -> Result<(Replies, RepliesPass), AllocError>
    requires { 0 < room }
    ensures room { IfOk result (λ made. ruled_capacity made.0 ≡ room) }
    ensures belongs { IfOk result (λ made. IsPassOf made.0 made.1) }
    ensures knows { IfOk result (λ made. view made.1 ≡ tally.Both 0 0) }
{
    Replies::ruled(alloc, room)
}

/// The pass of the new post, to which nothing was acknowledged yet.
pub fn part(replies: &Replies, desk: &mut RepliesPass) -> RepliesPass
    requires queue { IsPassOf replies.now desk.old }
    requires none { view desk.old ≡ tally.Both 0 0 }
    ensures queue { IsPassOf replies.now desk.new }
    ensures new_queue { IsPassOf replies.now result }
    ensures desk { view desk.new ≡ tally.Desk 0 }
    ensures post { view result ≡ tally.Post 0 }
{
    replies.another::<Parts>(desk)
}

/// Gives one more, unless the queue was full at a step of the call.
pub fn give<R: Wait>(rt: &R, replies: &Replies, pass: &mut RepliesPass) -> Result<(), ()>
    requires queue { IsPassOf replies.now pass.old }
    requires desk { IsDesk (view pass.old) }
    ensures queue { IsPassOf replies.now pass.new }
    ensures gave { MatchResult result (λ _. view pass.new ≡ having_given (view pass.old))
        (λ _. (view pass.new ≡ view pass.old)
        × WasFound (ruled_capacity replies.now) (view pass.old)
        × (ruled_capacity replies.now ≤ given_in (view pass.old))) }
    ensures is_desk { IsDesk (view pass.new) }
{
    replies.push_as::<Gives, R>(rt, pass, ())
}

/// Takes one, unless the queue was empty at a step of the call.
pub fn take<R: Wait>(rt: &R, replies: &Replies, pass: &mut RepliesPass) -> Option<()>
    requires queue { IsPassOf replies.now pass.old }
    requires post { IsPost (view pass.old) }
    ensures queue { IsPassOf replies.now pass.new }
    ensures took { MatchOption result
        ((view pass.new ≡ view pass.old) × WasFound 0 (view pass.old))
        (λ _. view pass.new ≡ having_taken (view pass.old)) }
    ensures is_post { IsPost (view pass.new) }
{
    replies.pop_as::<Takes, R>(rt, pass)
}

/// The post meets the desk.
pub fn join(replies: &Replies, desk: &mut RepliesPass, post: RepliesPass)
    requires queue { IsPassOf replies.now desk.old }
    requires post_queue { IsPassOf replies.now post }
    requires desk { IsDesk (view desk.old) }
    requires post { IsPost (view post) }
    ensures queue { IsPassOf replies.now desk.new }
    ensures met { view desk.new ≡ having_met (view desk.old) (view post) }
    ensures is_desk { IsDesk (view desk.new) }
    ensures covered { IsCovered (view desk.new) }
{
    replies.absorb::<Meets>(desk, post);
    replies.learn_as::<Compares>(desk);
}
