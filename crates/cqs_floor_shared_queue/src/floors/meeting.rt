//! The meeting of two desks.

ghost use Rattle.std.specs.Prelude.{◌≡◌, ℕ, ◌+◌, ◌<◌, ◌≤◌, ◌^◌, ◌++◌, length, map, max, slice_index, slice_index_or, vec_capacity};
ghost use Rattle.std.specs.List.{list_any};
ghost use Rattle.cqs_floor_shared_queue.specs.Ledgers.{own_round, own_rounds};
ghost use Rattle.cqs_floor_shared_queue.specs.Meeting.{CanJoin, CanMeetEach, HasJoined, HaveMetEach, has_wait};

use super::desk::Desk;
use super::holdings::take_over;
use cqs_floor_shared_kinds::SharedResource;

impl<X: SharedResource> Desk<X> {
    /// Whether some job has a wait.
    pub fn has_wait(&self) -> bool
        ensures { result ≡ list_any has_wait self.now.spots }
    {
        self.spots.iter().any(|spot| spot.wait.is_some())
    }

    /// Takes in what another desk has, at which no job has a wait.
    pub fn meet(&mut self, given: Desk<X>)
        requires { CanJoin X.share self.old given }
        ensures { HasJoined X.share self.old given self.new }
    {
        let Desk {
            shares,
            room,
            rounds,
            holdings,
            number,
            met,
            ..
        } = given;
        meet_shares(&mut self.shares, shares);
        add_room(&mut self.room, &room);
        raise_rounds(&mut self.rounds, &rounds);
        take_over(&mut self.holdings, &holdings);
        self.met.push_reserved(number);
        add_numbers(&mut self.met, &met);
    }
}

/// What each resource is kept as takes in its like.
fn meet_shares<X: SharedResource>(shares: &mut Vec<X>, given: Vec<X>)
    requires { CanMeetEach X.share shares.old.items given.items }
    ensures { HaveMetEach X.share shares.old.items given.items shares.new.items }
{
    let mut at = 0;
    for one in given {
        shares[at].meet(one);
        at += 1;
    }
}

/// The room of both, resource by resource.
fn add_room(room: &mut Vec<u32>, given: &Vec<u32>)
    requires long { length given.now.items ≡ length room.old.items }
    requires few { (at : ℕ) → slice_index room.old.items at + slice_index given.now.items at
        < 2 ^ 32 }
    ensures long { length room.new.items ≡ length room.old.items }
    ensures sums { (at : ℕ) → slice_index room.new.items at
        ≡ slice_index room.old.items at + slice_index given.now.items at }
{
    for at in 0..room.len() {
        room[at] += given[at];
    }
}

/// For each job and each resource the later of the two rounds.
fn raise_rounds(rounds: &mut Vec<Vec<u32>>, given: &Vec<Vec<u32>>)
    requires long { length given.now.items ≡ length rounds.old.items }
    requires each { (job : ℕ) → length (own_rounds (map (λ own. own.items) given.now.items) job)
        ≡ length (own_rounds (map (λ own. own.items) rounds.old.items) job) }
    ensures long { length rounds.new.items ≡ length rounds.old.items }
    ensures each { (job : ℕ) → length (own_rounds (map (λ own. own.items) rounds.new.items) job)
        ≡ length (own_rounds (map (λ own. own.items) rounds.old.items) job) }
    ensures raised { (job at : ℕ) → own_round (map (λ own. own.items) rounds.new.items) job at
        ≡ max (own_round (map (λ own. own.items) rounds.old.items) job at)
        (own_round (map (λ own. own.items) given.now.items) job at) }
{
    for job in 0..rounds.len() {
        raise(&mut rounds[job], &given[job]);
    }
}

fn raise(own: &mut Vec<u32>, given: &Vec<u32>)
    requires long { length given.now.items ≡ length own.old.items }
    ensures long { length own.new.items ≡ length own.old.items }
    ensures raised { (at : ℕ) → slice_index_or own.new.items at 0
        ≡ max (slice_index_or own.old.items at 0) (slice_index_or given.now.items at 0) }
{
    for at in 0..own.len() {
        own[at] = own[at].max(given[at]);
    }
}

/// These numbers as well, behind those that stand there.
fn add_numbers(met: &mut Vec<u32>, given: &Vec<u32>)
    requires { length met.old.items + length given.now.items ≤ vec_capacity met.old }
    ensures items { met.new.items ≡ met.old.items ++ given.now.items }
    ensures capacity { vec_capacity met.new ≡ vec_capacity met.old }
{
    for number in given {
        met.push_reserved(*number);
    }
}
