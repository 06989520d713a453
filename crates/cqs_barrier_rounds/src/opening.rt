//! How the rounds are made.

ghost use Rattle.std.specs.Prelude.{◌≡◌, ◌⊎◌, ◌<◌, All, false, true, vec_len, IfOk, IsErrOf, IsTrue};
ghost use mathlib.Core.Logic.{◌↔◌};
ghost use Rattle.cqs_rule_laws.specs.Configured.{is_config, is_small_config};
ghost use Rattle.cqs_rule.specs.Passes.{ample_of};
ghost use Rattle.cqs_barrier.specs.Calls.{IsMine};
ghost use Rattle.cqs_barrier_rounds.specs.Members.{round_of};
ghost use Rattle.cqs_barrier_rounds.specs.Rounds.{AreAmple, AreMine, AreOpened, IsOpened, is_config_for, rounds_in, barriers_of};

use crate::members::Member;
use crate::rounds::{Rounds, RoundsPass};
use cqs_barrier::{Barrier, BarrierPass};
use cqs_rule::{Config, MakeError};
use std::alloc::{AllocError, Global};

/// The most rounds that there may be.
const MOST_ROUNDS: u32 = 64;

impl Rounds {
    /// Rounds in which none has arrived, their first pass, which has the first pass of each round's
    /// barrier, and a member for each party, which comes to the first round. There are from 1 to 64
    /// of them, of 1 to 32 parties. `config.slots` is for each round's barrier: some
    /// `waiters / 32 + 2 * passes + 2` slots are for so many waiters at once.
    pub fn new(
        alloc: Global,
        parties: u32,
        rounds: u32,
        config: Config,
    ) -> Result<(Rounds, RoundsPass, Vec<Member>), MakeError>
        ensures bad_config { IsErrOf result MakeError.BadConfig ↔ ((rounds ≡ 0) ⊎ (64 < rounds)
            ⊎ (parties ≡ 0) ⊎ (32 < parties) ⊎ (is_config config ≡ false)) }
        ensures rounds { IfOk result (λ made. rounds_in made.0 ≡ rounds) }
        ensures belongs { IfOk result (λ made. AreMine (barriers_of made.0) made.1.passes.items) }
        ensures opened { IfOk result
            (λ made. AreOpened config parties (barriers_of made.0) made.1.passes.items) }
        ensures members { IfOk result (λ made. vec_len made.2 ≡ parties) }
        ensures first { IfOk result (λ made. All (λ member. round_of member ≡ 0) made.2.items) }
    {
        Rounds::make(alloc, parties, rounds, config, false)
    }

    /// The same of ample barriers: no call is crowded, and memory grows with the limit.
    pub fn ample(
        alloc: Global,
        parties: u32,
        rounds: u32,
        config: Config,
    ) -> Result<(Rounds, RoundsPass, Vec<Member>), MakeError>
        ensures bad_config { IsErrOf result MakeError.BadConfig ↔ ((rounds ≡ 0) ⊎ (64 < rounds)
            ⊎ (parties ≡ 0) ⊎ (32 < parties) ⊎ (is_small_config config ≡ false)) }
        ensures rounds { IfOk result (λ made. rounds_in made.0 ≡ rounds) }
        ensures belongs { IfOk result (λ made. AreMine (barriers_of made.0) made.1.passes.items) }
        ensures opened { IfOk result
            (λ made. AreOpened config parties (barriers_of made.0) made.1.passes.items) }
        ensures members { IfOk result (λ made. vec_len made.2 ≡ parties) }
        ensures first { IfOk result (λ made. All (λ member. round_of member ≡ 0) made.2.items) }
        ensures ample { IfOk result (λ made. AreAmple (barriers_of made.0)) }
    {
        Rounds::make(alloc, parties, rounds, config, true)
    }

    // The barriers are ample ones where it is said so.
    fn make(
        alloc: Global,
        parties: u32,
        rounds: u32,
        config: Config,
        ample: bool,
    ) -> Result<(Rounds, RoundsPass, Vec<Member>), MakeError>
        ensures bad_config { IsErrOf result MakeError.BadConfig ↔ ((rounds ≡ 0) ⊎ (64 < rounds)
            ⊎ (parties ≡ 0) ⊎ (32 < parties) ⊎ (is_config_for ample config ≡ false)) }
        ensures rounds { IfOk result (λ made. rounds_in made.0 ≡ rounds) }
        ensures belongs { IfOk result (λ made. AreMine (barriers_of made.0) made.1.passes.items) }
        ensures opened { IfOk result
            (λ made. AreOpened config parties (barriers_of made.0) made.1.passes.items) }
        ensures members { IfOk result (λ made. vec_len made.2 ≡ parties) }
        ensures first { IfOk result (λ made. All (λ member. round_of member ≡ 0) made.2.items) }
        ensures ample { IsTrue ample → IfOk result (λ made. AreAmple (barriers_of made.0)) }
    {
        if rounds == 0 || rounds > MOST_ROUNDS {
            return Err(MakeError::BadConfig);
        }
        let (barriers, passes) = open(alloc, parties, rounds, config, ample)?;
        let members = muster(alloc, parties)?;
        Ok((Rounds { barriers }, RoundsPass { passes }, members))
    }

    /// How many rounds there are.
    pub fn rounds(&self) -> u32
        ensures { result ≡ rounds_in self.now }
    {
        self.barriers.len() as u32
    }
}

// A barrier for each round, and its first pass.
fn open(
    alloc: Global,
    parties: u32,
    rounds: u32,
    config: Config,
    ample: bool,
) -> Result<(Vec<Barrier>, Vec<BarrierPass>), MakeError>
    requires some { 0 < rounds }
    ensures bad_config { IsErrOf result MakeError.BadConfig ↔ ((parties ≡ 0) ⊎ (32 < parties)
        ⊎ (is_config_for ample config ≡ false)) }
    ensures rounds { IfOk result (λ made. vec_len made.0 ≡ rounds) }
    ensures belongs { IfOk result (λ made. AreMine made.0.items made.1.items) }
    ensures opened { IfOk result (λ made. AreOpened config parties made.0.items made.1.items) }
    ensures ample { IsTrue ample → IfOk result (λ made. AreAmple made.0.items) }
{
    let mut barriers = Vec::new(alloc);
    let mut passes = Vec::new(alloc);
    for _round in 0..rounds {
        let (barrier, pass) = open_one(alloc, parties, config, ample)?;
        let Ok(()) = barriers.push(barrier) else {
            return Err(MakeError::Memory);
        };
        let Ok(()) = passes.push(pass) else {
            return Err(MakeError::Memory);
        };
    }
    Ok((barriers, passes))
}

// One of them.
fn open_one(
    alloc: Global,
    parties: u32,
    config: Config,
    ample: bool,
) -> Result<(Barrier, BarrierPass), MakeError>
    ensures bad_config { IsErrOf result MakeError.BadConfig ↔ ((parties ≡ 0) ⊎ (32 < parties)
        ⊎ (is_config_for ample config ≡ false)) }
    ensures belongs { IfOk result (λ made. IsMine made.0 made.1) }
    ensures opened { IfOk result (λ made. IsOpened config parties made.0 made.1) }
    ensures ample { IsTrue ample → IfOk result (λ made. ample_of made.0.queue ≡ true) }
{
    if ample {
        return Barrier::ample(alloc, parties, config);
    }
    Barrier::new(alloc, parties, config)
}

// A member for each party.
fn muster(alloc: Global, parties: u32) -> Result<Vec<Member>, AllocError>
    ensures members { IfOk result (λ made. vec_len made ≡ parties) }
    ensures first { IfOk result (λ made. All (λ member. round_of member ≡ 0) made.items) }
{
    let mut members = Vec::new(alloc);
    for _party in 0..parties {
        members.push(Member { round: 0 })?;
    }
    Ok(members)
}
