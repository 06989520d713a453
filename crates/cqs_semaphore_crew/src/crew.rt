//! A crew of workers, each with a thread and a pass of its own.

ghost use Rattle.std.specs.Prelude.{◌≡◌, ◌*◌, ◌^◌, ◌<◌, ◌≤◌, All, IfOk, IsErr, IsErrOf, OnErr, OnOk, vec_len};
ghost use Rattle.cqs_rule.specs.Passes.{pass_view, passes_of};
ghost use Rattle.cqs_rule_laws.specs.Crew.{MadeNone, MadeOne};
ghost use Rattle.cqs_rule_laws.specs.Views.{made_in};
ghost use Rattle.cqs_semaphore_crew.specs.declared.crew.CrewError.TheVariants.{Memory};
ghost use Rattle.cqs_semaphore_crew.specs.Sums.{CountsRounds};
ghost use Rattle.cqs_semaphore.specs.Callers.{held_by, IsAtRest};
ghost use Rattle.cqs_semaphore_crew.specs.Workers.{HasCounted, HasMade, HasMetAll, HasTakenIn, HasToldAll, IsCrowded, IsHired, IsNew};

use crate::counts::{Counts, none_yet};
use crate::worker::work;
use cqs_rule::Crowd;
use cqs_semaphore::{SemPass, Semaphore};
use std::alloc::{AllocError, Global};
use std::sync::Wait;
use std::thread::{self, Threads};

/// Why no crew worked, or its counts were lost.
#[derive(Clone, Copy, Debug, PartialEq, Eq)]
pub enum CrewError {
    /// There was no memory: for the list of passes, and then none was made; or for the threads, and
    /// then the passes of the crew are lost.
    Memory,
    /// As many passes were made as the semaphore allows. Those that were made for the crew were
    /// met back, and they count as made.
    Crowd,
}

impl From<AllocError> for CrewError {
    ghost from_gives = { λ _ e. e ≡ Memory };

    fn from(_error: AllocError) -> Self {
        CrewError::Memory
    }
}

/// Has so many threads make so many rounds each, with passes that are made of this one and meet it
/// again at the end. It gives the sums of what they counted.
pub fn together<R: Threads + Wait + Sync>(
    rt: &R,
    alloc: Global,
    semaphore: &Semaphore,
    pass: &mut SemPass,
    threads: u32,
    rounds: u32,
) -> Result<Counts, CrewError>
    requires rest { IsAtRest semaphore.now (held_by pass.old) pass.old }
    ensures rest { IsAtRest semaphore.now (held_by pass.old) pass.new }
    ensures met { OnOk result (HasMetAll (pass_view pass.old) threads (pass_view pass.new)) }
    ensures made { OnOk result (HasMade (pass_view pass.old) threads (pass_view pass.new)) }
    ensures counted { IfOk result (HasCounted rounds (pass_view pass.old) (pass_view pass.new)) }
    ensures rounds { IfOk result (CountsRounds (threads * rounds)) }
    ensures memory { IsErrOf result CrewError.Memory
        → HasMetAll (pass_view pass.old) 0 (pass_view pass.new) }
    ensures crowd { IsErrOf result CrewError.Crowd
        → IsCrowded semaphore.now threads (pass_view pass.old) (pass_view pass.new) }
{
    let passes = hire(alloc, semaphore, pass, threads)?;
    let worked = thread::map_vec(rt, passes, &|pass| work_hired(rt, semaphore, pass, rounds))?;
    Ok(dismiss(semaphore, pass, worked, rounds))
}

// So many new passes. Where one is refused, those that were made are taken in again.
fn hire(
    alloc: Global,
    semaphore: &Semaphore,
    pass: &mut SemPass,
    count: u32,
) -> Result<Vec<SemPass>, CrewError>
    requires rest { IsAtRest semaphore.now (held_by pass.old) pass.old }
    ensures rest { IsAtRest semaphore.now (held_by pass.old) pass.new }
    ensures met { OnOk result (HasMetAll (pass_view pass.old) 0 (pass_view pass.new)) }
    ensures made { OnOk result (HasMade (pass_view pass.old) count (pass_view pass.new)) }
    ensures memory { IsErrOf result CrewError.Memory
        → HasMetAll (pass_view pass.old) 0 (pass_view pass.new) }
    ensures crowd { IsErrOf result CrewError.Crowd
        → IsCrowded semaphore.now count (pass_view pass.old) (pass_view pass.new) }
    ensures hired { IfOk result (λ passes. All (IsHired semaphore.now) passes.items) }
    ensures new { IfOk result (λ passes. All IsNew passes.items) }
    ensures many { IfOk result (λ passes. vec_len passes ≡ count) }
    ensures same { OnOk result ((pass_view pass.new).own ≡ (pass_view pass.old).own) }
{
    let mut passes = Vec::with_capacity(alloc, count as usize)?;
    for _made in 0..count {
        match hire_one(semaphore, pass) {
            Ok(new) => passes.push_reserved(new),
            Err(Crowd) => {
                take_back(semaphore, pass, passes);
                return Err(CrewError::Crowd);
            }
        }
    }
    Ok(passes)
}

// A new pass, which holds nothing.
fn hire_one(semaphore: &Semaphore, pass: &mut SemPass) -> Result<SemPass, Crowd>
    requires rest { IsAtRest semaphore.now (held_by pass.old) pass.old }
    ensures rest { IsAtRest semaphore.now (held_by pass.old) pass.new }
    ensures met { HasMetAll (pass_view pass.old) 0 (pass_view pass.new) }
    ensures made_none { OnErr result (MadeNone (pass_view pass.old) (pass_view pass.new)) }
    ensures made_one { IfOk result
        (λ made. MadeOne (pass_view made).number (pass_view pass.old) (pass_view pass.new)) }
    ensures crowd { IsErr result
        → passes_of semaphore.now.queue ≤ made_in (pass_view pass.new).crew }
    ensures hired { IfOk result (λ made. IsHired semaphore.now made) }
    ensures new { IfOk result IsNew }
    ensures same { (pass_view pass.new).own ≡ (pass_view pass.old).own }
{
    semaphore.split(pass)
}

// Takes all these passes in again.
fn take_back(semaphore: &Semaphore, pass: &mut SemPass, passes: Vec<SemPass>)
    requires rest { IsAtRest semaphore.now (held_by pass.old) pass.old }
    requires hired { All (IsHired semaphore.now) passes.items }
    ensures rest { IsAtRest semaphore.now (held_by pass.old) pass.new }
    ensures met { HasMetAll (pass_view pass.old) (vec_len passes) (pass_view pass.new) }
    ensures made_none { MadeNone (pass_view pass.old) (pass_view pass.new) }
{
    for given in passes {
        take_in(semaphore, pass, given);
    }
}

// What each thread does.
fn work_hired<R: Wait>(
    rt: &R,
    semaphore: &Semaphore,
    pass: SemPass,
    rounds: u32,
) -> (SemPass, Counts)
    requires hired { IsHired semaphore.now pass }
    requires new { IsNew pass }
    ensures told { HasToldAll result.0 result.1 }
    ensures hired { IsHired semaphore.now result.0 }
    ensures rounds { CountsRounds rounds result.1 }
{
    work(rt, semaphore, pass, rounds)
}

// Takes the passes in again, and adds up what was counted with them.
// Each has made so many rounds.
fn dismiss(
    semaphore: &Semaphore,
    pass: &mut SemPass,
    worked: Vec<(SemPass, Counts)>,
    _rounds: u32,
) -> Counts
    requires rest { IsAtRest semaphore.now (held_by pass.old) pass.old }
    requires worked { All (λ w. IsHired semaphore.now w.0) worked.items }
    requires told { All (λ w. HasToldAll w.0 w.1) worked.items }
    requires made { All (λ w. CountsRounds _rounds w.1) worked.items }
    requires few { vec_len worked < 2 ^ 32 }
    ensures rest { IsAtRest semaphore.now (held_by pass.old) pass.new }
    ensures met { HasMetAll (pass_view pass.old) (vec_len worked) (pass_view pass.new) }
    ensures made_none { MadeNone (pass_view pass.old) (pass_view pass.new) }
    ensures counted { HasCounted _rounds (pass_view pass.old) (pass_view pass.new) result }
    ensures rounds { CountsRounds (vec_len worked * _rounds) result }
{
    let mut counts = none_yet();
    for (given, counted) in worked {
        take_in(semaphore, pass, given);
        counts = counts.with(counted);
    }
    counts
}

// Takes in a pass that holds nothing and has no wait.
fn take_in(semaphore: &Semaphore, pass: &mut SemPass, given: SemPass)
    requires rest { IsAtRest semaphore.now (held_by pass.old) pass.old }
    requires given { IsHired semaphore.now given }
    ensures rest { IsAtRest semaphore.now (held_by pass.old) pass.new }
    ensures met { HasMetAll (pass_view pass.old) 1 (pass_view pass.new) }
    ensures made_none { MadeNone (pass_view pass.old) (pass_view pass.new) }
    ensures taken { HasTakenIn (pass_view pass.old) (pass_view given) (pass_view pass.new) }
{
    match semaphore.meet(pass, given) {
        Ok(()) => (),
        Err(_) => unreachable!(),
    }
}
