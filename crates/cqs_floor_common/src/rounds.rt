//! The rounds in which jobs arrive next, job by job and resource by resource.

ghost use Rattle.std.specs.Prelude.{◌≡◌, ◌<◌, [], true, length, map, slice_index_or, slice_set};
ghost use Rattle.cqs_plan.specs.Floor.{is_barrier_in, rounds_back};
ghost use Rattle.cqs_plan.specs.Language.{is_barrier};
ghost use Rattle.cqs_turns_report.specs.Roles.{wait_at};

use cqs_plan::Kind;

fn is_barrier(kind: Kind) -> bool
    ensures { result ≡ is_barrier kind }
{
    matches!(kind, Kind::Rounds { .. })
}

/// There is a barrier at this place.
fn is_barrier_in(kinds: &[Kind], at: u32) -> bool
    ensures is { result ≡ is_barrier_in kinds.now at }
    ensures there { result ≡ true → at < length kinds.now }
{
    match kinds.get(at as usize) {
        Some(kind) => is_barrier(*kind),
        None => false,
    }
}

/// Takes an arrival of a job back, whose wait in this round is gone: the job arrives in it again.
/// Where there is no barrier nothing changes.
pub fn take_back(kinds: &[Kind], rounds: &mut Vec<Vec<u32>>, job: u32, at: u32, round: u32)
    requires own { job < length rounds.old.items }
    requires each { length (slice_index_or (map (λ own. own.items) rounds.old.items) job [])
        ≡ length kinds.now }
    ensures { map (λ own. own.items) rounds.new.items
        ≡ rounds_back kinds.now (map (λ own. own.items) rounds.old.items) job
        (wait_at at round 0) }
{
    if is_barrier_in(kinds, at) {
        put_round(rounds, job, at, round);
    }
}

/// The job arrives in this round next.
fn put_round(rounds: &mut Vec<Vec<u32>>, job: u32, at: u32, round: u32)
    requires own { job < length rounds.old.items }
    requires each { at < length (slice_index_or (map (λ own. own.items) rounds.old.items) job []) }
    ensures { map (λ own. own.items) rounds.new.items
        ≡ slice_set (map (λ own. own.items) rounds.old.items) job
        (slice_set (slice_index_or (map (λ own. own.items) rounds.old.items) job []) at round) }
{
    let own = &mut rounds[job as usize];
    own[at as usize] = round;
}
