//! How a post comes to an envelope, and gives one back.

ghost use Rattle.std.specs.Prelude.{◌≡◌, [], true, IsOk, IfOk, IfErr, OnOk, OnErr, IsErrOf};
ghost use Rattle.cqs_rule_laws.specs.CallRule.{IsReady};
ghost use Rattle.cqs_rule_laws.specs.Crew.{IsBetween};
ghost use Rattle.cqs_rule_laws.specs.Lists.{without};
ghost use Rattle.cqs_rule.specs.Claims.{WasCrowded};
ghost use Rattle.cqs_rule.specs.Owed.{HasUnder, under_payload, under_reached};
ghost use Rattle.cqs_rule.specs.Passes.{ample_of};
ghost use Rattle.cqs_rule.specs.Waits.{place_of, HasWait};
ghost use Rattle.cqs_pool.specs.Alone.{CanEnd, IsOnlyCaller, IsPlainCancel, IsPlainEnd, IsPlainPoll, IsPlainPut, IsPlainTake, TakesFirst};
ghost use Rattle.cqs_pool.specs.Answers.{Ends, IsBelow, IsCrowded, IsPolled, IsWorn, LeavesPass, Takes};
ghost use Rattle.cqs_pool.specs.Calls.{CallRule, plain_after};
ghost use Rattle.cqs_pool.specs.Elements.{number_of};
ghost use Rattle.cqs_pool.specs.Entries.{placed_further, polled_entries, put_entries, put_further, took_entries, took_further};
ghost use Rattle.cqs_pool.specs.Steps.{HasCancelled, HasDrawnPast, IsFurther};
ghost use Rattle.cqs_mailbox.specs.Calls.{CancelSpares, IsInLine, KeepsWaits, PollSpares, RoomSpares, as_answer, as_taking};
ghost use Rattle.cqs_mailbox.specs.Mailboxes.{IsPostOf, IsSpare, line_view};

use crate::answers::{Envelope, PostWait, Room, room_by};
use crate::mailbox::{Mailbox, Post};
use cqs_pool::{Placed, PoolLeft, PoolPolled};
use cqs_rule::{AcquireError, Crowded, Under};

impl Mailbox {
    /// An envelope where one is free, or else a wait for one. It is refused as worn where as many
    /// calls for room were made as the limit allows, even if an envelope is free; and else as
    /// crowded where it can't claim two spare slots, since each slot was seen not free.
    pub fn room(&self, post: &mut Post) -> Result<Room, AcquireError>
        requires belongs { IsPostOf self.now post.old }
        requires ready { IsReady (line_view post.old).facts }
        ensures belongs { IsPostOf self.now post.new }
        ensures in_line { IsInLine post.old post.new }
        ensures called { CallRule (line_view post.old)
            (took_entries (line_view post.old).number (as_answer result))
            (took_further (as_answer result)) (line_view post.new) }
        ensures worn { IsErrOf result AcquireError.Worn
            → IsWorn (line_view post.old) (line_view post.new) }
        ensures crowded { IsErrOf result AcquireError.Crowded
            → IsCrowded (line_view post.old) (line_view post.new) }
        ensures never_crowded { ample_of self.now.pool.queue ≡ true
            → ¬ IsErrOf result AcquireError.Crowded }
        ensures below { OnOk result (IsBelow (line_view post.old) (line_view post.new)) }
        ensures took { IfOk result
            (λ room. Takes (line_view post.old) (as_taking room) (line_view post.new)) }
        ensures ready { IsReady (line_view post.new).facts }
        ensures alone { (line_view post.old).alone ≡ true
            → IfOk result (λ room. IsPlainTake (line_view post.old) (as_taking room)) }
        ensures first { IsOnlyCaller (line_view post.old)
            → IfOk result (λ room. TakesFirst (line_view post.old) (as_taking room)) }
        ensures spare { IfOk result (λ room. RoomSpares room post.new) }
    {
        match self.pool.take(&mut post.pool) {
            Ok(taking) => Ok(room_by(taking)),
            Err(error) => Err(error),
        }
    }

    /// Looks whether the wait was served.
    pub fn poll(&self, post: &mut Post, wait: PostWait) -> PoolPolled
        requires belongs { IsPostOf self.now post.old }
        requires ready { IsReady (line_view post.old).facts }
        requires has { HasWait (line_view post.old) wait }
        ensures belongs { IsPostOf self.now post.new }
        ensures in_line { IsInLine post.old post.new }
        ensures called { CallRule (line_view post.old)
            (polled_entries (line_view post.old).number (place_of wait).index result) []
            (line_view post.new) }
        ensures polled { IsPolled wait (line_view post.old) result (line_view post.new) }
        ensures ready { IsReady (line_view post.new).facts }
        ensures alone { (line_view post.old).alone ≡ true
            → IsPlainPoll (place_of wait).index (line_view post.old) result }
        ensures spare { PollSpares result post.new }
    {
        self.pool.poll(&mut post.pool, wait)
    }

    /// Leaves the line, or has the envelope that had come before. Where one was left to the post
    /// that leaves, it goes on to the next number.
    pub fn cancel(&self, post: &mut Post, wait: PostWait) -> PoolLeft
        requires belongs { IsPostOf self.now post.old }
        requires ready { IsReady (line_view post.old).facts }
        requires has { HasWait (line_view post.old) wait }
        ensures belongs { IsPostOf self.now post.new }
        ensures in_line { IsInLine post.old post.new }
        ensures cancelled { HasCancelled (place_of wait).index (line_view post.old) result
            (line_view post.new) }
        ensures leaves { LeavesPass (place_of wait).index (line_view post.old) result
            (line_view post.new) }
        ensures between { IsBetween (line_view post.new).facts }
        ensures alone { (line_view post.old).alone ≡ true
            → IsPlainCancel (place_of wait).index (line_view post.old) result
            (line_view post.new) }
        ensures spare { CancelSpares result post.new }
    {
        self.pool.cancel(&mut post.pool, wait)
    }

    /// Gives an envelope back that is out with no letter: it goes to the first who waits, or is
    /// free. It is refused as crowded where the post has no spare slot and can't claim one, since
    /// each was seen not free. Then the envelope comes back, and is out with no letter still.
    pub fn post_back(
        &self,
        post: &mut Post,
        envelope: Envelope,
    ) -> Result<Placed, (Envelope, Crowded)>
        requires belongs { IsPostOf self.now post.old }
        requires ready { IsReady (line_view post.old).facts }
        requires spare { IsSpare (number_of envelope) post.old }
        ensures belongs { IsPostOf self.now post.new }
        ensures in_line { IsInLine post.old post.new }
        ensures called { CallRule (line_view post.old)
            (put_entries (line_view post.old).number (number_of envelope) result)
            (put_further (number_of envelope) result) (line_view post.new) }
        ensures crowded { OnErr result (WasCrowded 1 (line_view post.old).facts
            (line_view post.old) (line_view post.new)) }
        ensures never_crowded { ample_of self.now.pool.queue ≡ true → IsOk result }
        ensures back { IfErr result (λ refused. refused.0 ≡ envelope) }
        ensures spare { IfErr result (λ refused. IsSpare (number_of refused.0) post.new) }
        ensures ready { OnErr result (IsReady (line_view post.new).facts) }
        ensures ends { IfOk result (λ placed. Ends (line_view post.old) (number_of envelope)
            (without (number_of envelope) (line_view post.old).facts.has.slots)
            (line_view post.old).facts.waits placed (line_view post.new)) }
        ensures waits { KeepsWaits (line_view post.old) (line_view post.new) }
        ensures between { IsBetween (line_view post.new).facts }
        ensures alone { (line_view post.old).alone ≡ true
            → IfOk result (λ placed. IsPlainPut (line_view post.old) placed
            (line_view post.new)) }
    {
        self.pool.put(&mut post.pool, envelope)
    }

    /// Goes on with an envelope that is on its way, and whose resumption was handed back. It may be
    /// handed back again: where as many numbers were passed over as one call may, or for want of a
    /// slot.
    pub fn post_finish(&self, post: &mut Post, under: Under) -> Placed
        requires belongs { IsPostOf self.now post.old }
        requires owes { HasUnder (line_view post.old).facts under }
        requires further { (line_view post.old).facts.has.further ≡ 0 }
        ensures belongs { IsPostOf self.now post.new }
        ensures in_line { IsInLine post.old post.new }
        ensures called { CallRule (line_view post.old) []
            (placed_further (under_payload under) result) (line_view post.new) }
        ensures ends { Ends (line_view post.old) (under_payload under)
            (line_view post.old).facts.has.slots (line_view post.old).facts.waits result
            (line_view post.new) }
        ensures further { ample_of self.now.pool.queue ≡ true
            → IsFurther (under_reached under) result }
        ensures drawn_past { HasDrawnPast (under_reached under) result }
        ensures between { IsBetween (line_view post.new).facts }
        ensures alone { (line_view post.old).alone ≡ true
            → CanEnd (plain_after (line_view post.old))
            → IsPlainEnd (line_view post.old) result (line_view post.new) }
    {
        self.pool.finish(&mut post.pool, under)
    }
}
