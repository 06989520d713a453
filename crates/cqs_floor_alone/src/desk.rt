//! What a floor is made of, and its calls.
//!
//! Each call makes one call of one resource and writes down what the job got or gave back. All
//! memory was taken before: a resource has room for the calls that are still to come, and so has
//! the list of transfers.
//!
//! What the jobs hold is kept three times, since three ask for it. The turn machine reads its own
//! list of each job (`JobState::held`), to give all back at the end. A resource knows what its
//! caller holds, since it lets nothing be given that isn't held, and a pool also for which job. The
//! list of transfers is written and not read: contracts read off it what each job holds, oldest
//! first. A wait is kept twice: the machine reads the one in the job's progress, to tell its line,
//! and the floor the one in `waits`, to ask its resource.

ghost use Rattle.std.specs.Prelude.{◌≡◌, ◌<◌, ◌≤◌, None, Some, length, map, slice_index, slice_set, vec_len};
ghost use Rattle.cqs_floor_alone.specs.DeskCalls.{
  Awaits,
  CanEndAt,
  CanEndWait,
  Comes,
  Downs,
  Ends,
  Gives,
  HasAt,
  Leaves,
  Looks,
  Takes,
};
ghost use Rattle.cqs_floor_alone.specs.Ledger.{own_round, own_rounds, round_in, rounds_of, wait_at, with_arrival};
ghost use Rattle.cqs_floor_alone_kinds.specs.Stores.{
  CanAcquire,
  CanArrive,
  CanCount,
  CanEnd,
  CanRelease,
  CanWait,
};
ghost use Rattle.cqs_floor_alone_kinds.specs.Waits.{place_in, slot_wait};

use crate::transfers::Transfer;
use cqs_floor_alone_kinds::{Left, Looked, SoleResource, Taken, Wait, WaitSlot};
use cqs_floor_common::take_back;
use cqs_plan::{FloorDown, FloorEnd, FloorGive, FloorLeave, FloorLook, FloorTake, Kind};
use std::marker::Model;

/// For each resource what it is, what it is kept as, and its room; for each job its wait, and how
/// often it arrived at each resource and didn't take that back; and what the jobs got and gave
/// back.
#[derive(Drop)]
pub struct Desk<S: SoleResource> {
    pub kinds: Vec<Kind>,
    pub soles: Vec<S>,
    pub room: Vec<u32>,
    pub waits: Vec<WaitSlot>,
    pub rounds: Vec<Vec<u32>>,
    pub transfers: Vec<Transfer>,
    pub ghost few: { vec_len room ≤ 64 },
}

impl<S: SoleResource> Model for Desk<S> {
    ghost use Rattle.std.specs.Prelude.{◌-◌, map, vec_len, vec_capacity};
    ghost use Rattle.cqs_floor_alone.specs.Ledger.{Ledger};
    ghost use Rattle.cqs_floor_alone_kinds.specs.Waits.{slot_wait};

    ghost Value = { Ledger S };

    ghost view = { λ d. record {
      kinds = d.kinds.items;
      soles = d.soles.items;
      room = d.room.items;
      waits = map slot_wait d.waits.items;
      rounds = map (λ own. own.items) d.rounds.items;
      transfers = d.transfers.items;
      spare = vec_capacity d.transfers - vec_len d.transfers;
    } };
}

impl<S: SoleResource> Desk<S> {
    /// The job takes.
    pub fn take(&mut self, at: u32, job: u32) -> FloorTake
        requires sole { HasAt self.old.soles at (CanAcquire S.store job) }
        requires place { at < length self.old.room }
        requires room { 0 < slice_index self.old.room at }
        requires job { job < length self.old.waits }
        requires spare { 0 < self.old.spare }
        ensures { Takes S.store self.old at job result self.new }
    {
        self.room[at as usize] -= 1;
        match self.soles[at as usize].take(job) {
            Taken::Now(element) => {
                self.transfers
                    .push_reserved(Transfer::Got { job, at, element });
                FloorTake::Now(element)
            }
            Taken::Waits(place) => {
                put_wait(&mut self.waits, job, Wait::new(at, 0, place));
                FloorTake::Waits(place.index)
            }
        }
    }

    /// The job gives back the oldest that it holds of this resource.
    pub fn give(&mut self, at: u32, job: u32) -> FloorGive
        requires sole { HasAt self.old.soles at (CanRelease S.store job) }
        requires spare { 0 < self.old.spare }
        ensures { Gives S.store self.old at job result self.new }
    {
        self.transfers.push_reserved(Transfer::GaveBack { job, at });
        self.soles[at as usize].give(job)
    }

    /// Counts a latch down.
    pub fn down(&mut self, at: u32) -> FloorDown
        requires sole { HasAt self.old.soles at (CanCount S.store) }
        ensures { Downs S.store self.old at result self.new }
    {
        self.soles[at as usize].down()
    }

    /// The job passes a latch, or waits there.
    pub fn wait(&mut self, at: u32, job: u32) -> FloorTake
        requires sole { HasAt self.old.soles at (CanWait S.store job) }
        requires place { at < length self.old.room }
        requires room { 0 < slice_index self.old.room at }
        requires job { job < length self.old.waits }
        ensures { Awaits S.store self.old at job result self.new }
    {
        self.room[at as usize] -= 1;
        match self.soles[at as usize].wait(job) {
            None => FloorTake::Now(0),
            Some(place) => {
                put_wait(&mut self.waits, job, Wait::new(at, 0, place));
                FloorTake::Waits(place.index)
            }
        }
    }

    /// The job arrives at a barrier, in its next round there.
    pub fn arrive(&mut self, at: u32, job: u32) -> FloorTake
        requires sole { HasAt self.old.soles at
            (CanArrive S.store job (round_in self.old job at)) }
        requires place { at < length self.old.room }
        requires room { 0 < slice_index self.old.room at }
        requires job { job < length self.old.waits }
        requires own { job < length self.old.rounds }
        requires each { at < length (rounds_of self.old job) }
        requires few { round_in self.old job at < 64 }
        ensures { Comes S.store self.old at job result self.new }
    {
        self.room[at as usize] -= 1;
        let round = count_round(&mut self.rounds, at, job);
        match self.soles[at as usize].arrive(job, round) {
            None => FloorTake::Now(0),
            Some(place) => {
                put_wait(&mut self.waits, job, Wait::new(at, round, place));
                FloorTake::Waits(place.index)
            }
        }
    }

    /// The wait of a job that waits.
    #[inline]
    fn wait_of(&self, job: u32) -> Wait
        requires { CanEndWait S.store self.now job }
        ensures was { wait_at self.now job ≡ Some result }
        ensures sole { HasAt self.now.soles result.at
            (CanEnd S.store job result.round (place_in result)) }
    {
        match self.waits[job as usize].wait() {
            Some(wait) => wait,
            None => unreachable!(),
        }
    }

    /// The job looks at its wait. While that goes on nothing is written.
    pub fn look(&mut self, job: u32) -> FloorLook
        requires wait { CanEndWait S.store self.old job }
        requires spare { 0 < self.old.spare }
        ensures { Looks S.store self.old job result self.new }
    {
        let wait = self.wait_of(job);
        let at = wait.at;
        match self.soles[at as usize].look(job, wait.round, wait.place()) {
            Looked::Pending => FloorLook::Pending,
            Looked::Got(element) => {
                take_out_wait(&mut self.waits, job);
                self.transfers
                    .push_reserved(Transfer::Got { job, at, element });
                FloorLook::Granted(element)
            }
            Looked::Through => {
                take_out_wait(&mut self.waits, job);
                FloorLook::Granted(0)
            }
        }
    }

    /// The job gives its wait up: it leaves the line, where the wait still stands there, and takes
    /// an arrival back.
    pub fn leave(&mut self, job: u32) -> FloorLeave
        requires wait { CanEndWait S.store self.old job }
        requires spare { 0 < self.old.spare }
        requires own { job < length self.old.rounds }
        requires each { length (rounds_of self.old job) ≡ length self.old.kinds }
        ensures { Leaves S.store self.old job result self.new }
    {
        let wait = self.wait_of(job);
        take_out_wait(&mut self.waits, job);
        let at = wait.at;
        match self.soles[at as usize].leave(job, wait.round, wait.place()) {
            Left::Gone => {
                take_back(self.kinds.as_slice(), &mut self.rounds, job, at, wait.round);
                FloorLeave::Gone
            }
            Left::Late(element) => {
                self.transfers
                    .push_reserved(Transfer::Got { job, at, element });
                FloorLeave::Late(element)
            }
            Left::Through => FloorLeave::Late(0),
        }
    }

    /// How a resource stands.
    pub fn end(&mut self, at: u32) -> FloorEnd
        requires { CanEndAt S.store self.old at }
        ensures { Ends S.store self.old at result self.new }
    {
        let kind = self.kinds[at as usize];
        self.soles[at as usize].end(kind)
    }
}

/// The round in which a job arrives at a barrier. From then on it is in the next one there.
fn count_round(rounds: &mut Vec<Vec<u32>>, at: u32, job: u32) -> u32
    requires own { job < length rounds.old.items }
    requires each { at < length (own_rounds (map (λ own. own.items) rounds.old.items) job) }
    requires few { own_round (map (λ own. own.items) rounds.old.items) job at < 64 }
    ensures round { result ≡ own_round (map (λ own. own.items) rounds.old.items) job at }
    ensures counted { map (λ own. own.items) rounds.new.items
        ≡ with_arrival (map (λ own. own.items) rounds.old.items) job at }
{
    let own = &mut rounds[job as usize];
    let round = own[at as usize];
    own[at as usize] = round + 1;
    round
}

/// The job has this wait from now on.
#[inline]
fn put_wait(waits: &mut Vec<WaitSlot>, job: u32, wait: Wait)
    requires job { job < length waits.old.items }
    requires few_resources { wait.at < 65536 }
    requires few_rounds { wait.round < 256 }
    ensures { map slot_wait waits.new.items
        ≡ slice_set (map slot_wait waits.old.items) job (Some wait) }
{
    waits[job as usize] = WaitSlot::of(wait);
}

/// The job has no wait any more.
#[inline]
fn take_out_wait(waits: &mut Vec<WaitSlot>, job: u32)
    requires job { job < length waits.old.items }
    ensures { map slot_wait waits.new.items
        ≡ slice_set (map slot_wait waits.old.items) job None }
{
    waits[job as usize] = WaitSlot::Free;
}
