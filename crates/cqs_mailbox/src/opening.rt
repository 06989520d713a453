//! How a mailbox is made.

ghost use Rattle.std.specs.Prelude.{◌≡◌, ◌⊎◌, ◌<◌, ◌≤◌, false, IfOk, IfSome, IsErrOf, IsNone, OnSome};
ghost use mathlib.Core.Logic.{◌↔◌};
ghost use Rattle.cqs_rule_laws.specs.CallRule.{IsReady};
ghost use Rattle.cqs_rule_laws.specs.Configured.{is_config};
ghost use Rattle.cqs_rule.specs.Passes.{pass_view};
ghost use Rattle.cqs_pool.specs.Calls.{IsMine};
ghost use Rattle.cqs_mailbox.specs.Calls.{AreNewParts, IsNewMailbox, config_for};
ghost use Rattle.cqs_mailbox.specs.Mailboxes.{IsDeskOf, IsPostOf};
ghost use Rattle.cqs_mailbox.specs.Spare.{AreSpare};

use crate::letters;
use crate::mailbox::{Desk, Mailbox, Post};
use crate::senders::open_all;
use cqs_pool::{Pool, PoolPass};
use cqs_rule::{Config, MakeError};
use std::alloc::Global;

/// The most envelopes that a mailbox may be made with.
const MOST_ROOM: u32 = 4096;

/// The most passes that its pool may be made with.
const MOST_PASSES: u32 = 32;

impl Mailbox {
    /// A mailbox with this many envelopes, its desk, and its first post, which is sender 0. The
    /// desk has one of the passes and each post another: there are from 2 to 32. There are from 1
    /// to 4,096 envelopes, and at most `limit` calls for room in all, from 1 to 68,719,476,736. The
    /// pool has `2 * passes + 8 + room / 32` slots, which are used again.
    pub fn new(
        alloc: Global,
        room: u32,
        passes: u32,
        limit: u64,
    ) -> Result<(Mailbox, Desk, Post), MakeError>
        ensures bad_config { IsErrOf result MakeError.BadConfig
            ↔ ((room ≡ 0) ⊎ (4096 < room) ⊎ (passes < 2)
            ⊎ (is_config (config_for room passes limit) ≡ false)) }
        ensures desk { IfOk result (λ made. IsDeskOf made.0 made.1) }
        ensures post { IfOk result (λ made. IsPostOf made.0 made.2) }
        ensures new { IfOk result (λ made. IsNewMailbox room passes limit made.0 made.1 made.2) }
    {
        let (mailbox, mut desk) = match make_parts(alloc, room, passes, limit) {
            Ok(made) => made,
            Err(error) => return Err(error),
        };
        match mailbox.split(alloc, &mut desk) {
            Ok(post) => Ok((mailbox, desk, post)),
            Err(_) => Err(MakeError::Memory),
        }
    }
}

// A mailbox without posts, and its desk.
fn make_parts(
    alloc: Global,
    room: u32,
    passes: u32,
    limit: u64,
) -> Result<(Mailbox, Desk), MakeError>
    ensures bad_config { IsErrOf result MakeError.BadConfig
        ↔ ((room ≡ 0) ⊎ (4096 < room) ⊎ (passes < 2)
        ⊎ (is_config (config_for room passes limit) ≡ false)) }
    ensures desk { IfOk result (λ made. IsDeskOf made.0 made.1) }
    ensures new { IfOk result (λ made. AreNewParts room passes limit made.0 made.1) }
{
    let Some(config) = config_of(room, passes, limit) else {
        return Err(MakeError::BadConfig);
    };
    let (pool, mut line) = match Pool::new(alloc, room, config) {
        Ok(made) => made,
        Err(error) => return Err(error),
    };
    let Ok(spare) = rest_all(alloc, &pool, &mut line, passes - 1) else {
        return Err(MakeError::Memory);
    };
    let Ok((letters, all)) = letters::open(alloc, room as usize) else {
        return Err(MakeError::Memory);
    };
    let Ok((replies, each)) = open_all(alloc, passes - 1, room) else {
        return Err(MakeError::Memory);
    };
    let mailbox = Mailbox {
        pool,
        letters,
        replies,
    };
    let desk = Desk {
        posts: 0,
        pool: line,
        spare,
        letters: all,
        replies: each,
    };
    Ok((mailbox, desk))
}

// The passes of so many posts, each of which rests until its post is made.
fn rest_all(
    alloc: Global,
    pool: &Pool,
    line: &mut PoolPass,
    posts: u32,
) -> Result<Vec<PoolPass>, MakeError>
    requires belongs { IsMine pool.now line.old }
    requires ready { IsReady (pass_view line.old).facts }
    ensures belongs { IsMine pool.now line.new }
    ensures ready { IsReady (pass_view line.new).facts }
    ensures spare { IfOk result (λ made. AreSpare pool.now posts made.items) }
{
    let mut made = Vec::new(alloc);
    for _post in 0..posts {
        let Ok(pass) = pool.split(line) else {
            // No clause of the pool says that it has so many passes, but it has.
            return Err(MakeError::Memory);
        };
        let Ok(()) = made.push(pass) else {
            return Err(MakeError::Memory);
        };
    }
    Ok(made)
}

// How the pool of the envelopes is made. Its slots have room for the envelopes, and for some 160
// calls that wait at once.
fn config_of(room: u32, passes: u32, limit: u64) -> Option<Config>
    ensures none { IsNone result → (4096 < room) ⊎ (passes < 2)
        ⊎ (is_config (config_for room passes limit) ≡ false) }
    ensures some { IfSome result (λ config. config ≡ config_for room passes limit) }
    ensures range { OnSome result ((room ≤ 4096) × (2 ≤ passes) × (passes ≤ 32)) }
{
    if room > MOST_ROOM {
        return None;
    }
    if passes < 2 {
        return None;
    }
    if passes > MOST_PASSES {
        return None;
    }
    Some(Config {
        passes,
        limit,
        slots: 2 * passes + 8 + room / 32,
    })
}
