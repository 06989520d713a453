//! How the desk makes a post, and takes one in.

ghost use Rattle.std.specs.Prelude.{◌≡◌, ◌<◌, ◌≤◌, IsErr, IsErrOf, IfOk, IfErr, OnErr, OnOk};
ghost use mathlib.Core.Logic.{◌↔◌};
ghost use Rattle.cqs_rule_laws.specs.Crew.{IsBetween};
ghost use Rattle.cqs_rule.specs.Seats.{IsBusy};
ghost use Rattle.cqs_mailbox.specs.Calls.{HasHired, HasTakenIn};
ghost use Rattle.cqs_mailbox.specs.Mailboxes.{IsDeskOf, IsPostOf, line_view, most_posts, posts_of};

use crate::answers::SplitError;
use crate::letters::hire;
use crate::mailbox::{Desk, Mailbox, Post};
use crate::replies::part;
use crate::{letters, replies};
use cqs_rule::MeetError;
use std::alloc::Global;
use std::collections::VecDeque;

impl Mailbox {
    /// A new post, which has the next sender number, has sent nothing, and may have an envelope of
    /// each letter out. It is refused where as many were made as there are passes beside the
    /// desk's, or else where there is no memory for these envelopes.
    pub fn split(&self, alloc: Global, desk: &mut Desk) -> Result<Post, SplitError>
        requires belongs { IsDeskOf self.now desk.old }
        ensures belongs { IsDeskOf self.now desk.new }
        ensures crowd { IsErrOf result SplitError.Crowd
            ↔ (most_posts self.now ≤ posts_of desk.old) }
        ensures unchanged { OnErr result (desk.new ≡ desk.old) }
        ensures new_belongs { IfOk result (λ post. IsPostOf self.now post) }
        ensures hired { IfOk result (λ post. HasHired desk.old post desk.new) }
    {
        let sender = desk.posts;
        let at = sender as usize;
        if at >= self.replies.len() {
            return Err(SplitError::Crowd);
        }
        let Ok(sent) = VecDeque::with_capacity(alloc, self.letters.capacity()) else {
            return Err(SplitError::Memory);
        };
        let Some(mut pool) = desk.spare.pop() else {
            unreachable!();
        };
        self.pool.catch_up(&mut pool, &mut desk.pool);
        desk.posts = sender + 1;
        Ok(Post {
            sender,
            next: 0,
            pool,
            letters: hire(&self.letters, &mut desk.letters),
            replies: part(&self.replies[at], &mut desk.replies[at]),
            sent,
        })
    }

    /// The post meets the desk, unless it has a wait or owes something. The envelopes that are out
    /// with its letters and weren't reclaimed stay held for good: nobody can put them back.
    pub fn meet(&self, desk: &mut Desk, post: Post) -> Result<(), (Post, MeetError)>
        requires belongs { IsDeskOf self.now desk.old }
        requires post_belongs { IsPostOf self.now post }
        requires between { IsBetween (line_view post).facts }
        ensures belongs { IsDeskOf self.now desk.new }
        ensures busy { IsErr result ↔ IsBusy (line_view post).facts }
        ensures back { IfErr result (λ refused. refused.0 ≡ post) }
        ensures unchanged { OnErr result (desk.new ≡ desk.old) }
        ensures met { OnOk result (HasTakenIn desk.old post desk.new) }
    {
        let Post {
            sender,
            next,
            pool,
            letters,
            replies,
            sent,
        } = post;
        if let Err((pool, error)) = self.pool.meet(&mut desk.pool, pool) {
            let back = Post {
                sender,
                next,
                pool,
                letters,
                replies,
                sent,
            };
            return Err((back, error));
        }
        let at = sender as usize;
        letters::join(&self.letters, &mut desk.letters, letters, sender);
        replies::join(&self.replies[at], &mut desk.replies[at], replies);
        Ok(())
    }
}
