//! What the floor of a worker is made of, and its calls.
//!
//! Each call makes one call of one resource, and writes down what the job got, gave back or waits
//! for. All memory was taken before: what the jobs hold has room for all that is still to come.

ghost use Rattle.std.specs.Prelude.{◌≡◌, ◌<◌, false, IsTrue, Some, length, map, slice_get, slice_index};
ghost use Rattle.std.specs.List.{list_any};
ghost use Rattle.cqs_floor_shared_queue.specs.DeskCalls.{
  Arrives,
  Calls,
  CanEndAt,
  CanEndWait,
  Downs,
  Ends,
  Gives,
  HasAt,
  Leaves,
  Looks,
  Takes,
  Waits,
};
ghost use Rattle.cqs_floor_shared_queue.specs.Holdings.{is_of};
ghost use Rattle.cqs_floor_shared_queue.specs.Ledgers.{
  and_arrived,
  own_round,
  own_rounds,
  round_in,
  with_arrival,
  with_back,
  with_grant,
  with_shares,
  without_wait,
};
ghost use Rattle.cqs_floor_shared_kinds.specs.ShareCalls as calls;
ghost use Rattle.cqs_floor_shared_queue.specs.Spots.{place_in};

use super::holdings::{JobHolding, drop_oldest, hold_brought, hold_taken};
use super::spots::{FloorWait, Spot, note};
use cqs_floor_common::take_back;
use cqs_floor_shared::{SharedGive, Turned};
use cqs_floor_shared_kinds::{Came, SharedResource};
use cqs_plan::{FloorDown, FloorEnd, FloorLeave, FloorLook, FloorTake, Kind};
use std::marker::Model;
use std::sync::Wait;

/// For each resource what it is, what it is kept as, and its room; for each job where it stands,
/// and how often it arrived at each resource and didn't take that back; what the jobs hold; and
/// which floor it is.
#[derive(Drop)]
pub struct Desk<X: SharedResource> {
    pub kinds: Vec<Kind>,
    pub shares: Vec<X>,
    pub room: Vec<u32>,
    pub spots: Vec<Spot>,
    pub rounds: Vec<Vec<u32>>,
    pub holdings: Vec<JobHolding>,
    /// The number of its passes.
    pub number: u32,
    /// The numbers of the floors that met in it.
    pub met: Vec<u32>,
    /// How many floors were split from one with it.
    pub floors: u32,
    /// How often the jobs may begin to wait at each of them at most.
    pub budget: u32,
}

impl<X: SharedResource> Model for Desk<X> {
    ghost use Rattle.std.specs.Prelude.{map, vec_capacity};
    ghost use Rattle.cqs_floor_shared_queue.specs.Ledgers.{Ledger};

    ghost Value = { Ledger X };

    ghost view = { λ d. record {
      kinds = d.kinds.items;
      shares = d.shares.items;
      room = d.room.items;
      spots = d.spots.items;
      rounds = map (λ own. own.items) d.rounds.items;
      holdings = d.holdings.items;
      number = d.number;
      met = d.met.items;
      floors = d.floors;
      budget = d.budget;
      space = vec_capacity d.holdings;
      seats = vec_capacity d.met;
    } };
}

impl<X: SharedResource> Desk<X> {
    /// The job takes.
    pub fn take<R: Wait>(&mut self, rt: &R, at: u32, job: u32) -> Result<FloorTake, Turned>
        requires share { HasAt self.old.shares at (calls.CanTake X.share job) }
        requires place { at < length self.old.room }
        requires room { 0 < slice_index self.old.room at }
        requires job { job < length self.old.spots }
        requires space { length self.old.holdings < self.old.space }
        ensures { Takes X.share self.old at job result self.new }
    {
        self.room[at as usize] -= 1;
        let came = self.shares[at as usize].take(rt, job);
        hold_taken(&mut self.holdings, at, job, came);
        note(&mut self.spots, at, 0, job, came)
    }

    /// The job gives back the oldest that it holds of this resource.
    pub fn give<R: Wait>(&mut self, rt: &R, at: u32, job: u32) -> SharedGive
        requires share { HasAt self.old.shares at (calls.CanGive X.share job) }
        requires holds { IsTrue (list_any (is_of at job) self.old.holdings) }
        ensures { Gives X.share self.old at job result self.new }
    {
        drop_oldest(&mut self.holdings, at, job);
        self.shares[at as usize].give(rt, job)
    }

    /// Counts a latch down.
    pub fn down<R: Wait>(&mut self, rt: &R, at: u32) -> FloorDown
        requires { HasAt self.old.shares at (calls.CanCount X.share) }
        ensures { Downs X.share self.old at result self.new }
    {
        self.shares[at as usize].down(rt)
    }

    /// The job passes a latch, or waits there.
    pub fn wait<R: Wait>(&mut self, rt: &R, at: u32, job: u32) -> Result<FloorTake, Turned>
        requires share { HasAt self.old.shares at (calls.CanWait X.share job) }
        requires place { at < length self.old.room }
        requires room { 0 < slice_index self.old.room at }
        requires job { job < length self.old.spots }
        ensures { Waits X.share self.old at job result self.new }
    {
        self.room[at as usize] -= 1;
        let came = self.shares[at as usize].wait(rt, job);
        note(&mut self.spots, at, 0, job, came)
    }

    /// The job arrives at a barrier, in its next round there. Where it is turned away that is its
    /// next round still.
    pub fn arrive<R: Wait>(&mut self, rt: &R, at: u32, job: u32) -> Result<FloorTake, Turned>
        requires share { HasAt self.old.shares at
            (calls.CanArrive X.share job (round_in self.old job at)) }
        requires place { at < length self.old.room }
        requires room { 0 < slice_index self.old.room at }
        requires job { job < length self.old.spots }
        requires own { job < length self.old.rounds }
        requires each { at < length (own_rounds self.old.rounds job) }
        requires few { round_in self.old job at < 64 }
        ensures { Arrives X.share self.old at job result self.new }
    {
        self.room[at as usize] -= 1;
        let round = round_of(&self.rounds, at, job);
        let came = self.shares[at as usize].arrive(rt, job, round);
        count_round(&mut self.rounds, at, job, came);
        note(&mut self.spots, at, round, job, came)
    }

    /// The job looks at its wait. While that goes on nothing is written.
    pub fn look(&mut self, job: u32) -> FloorLook
        requires wait { CanEndWait X.share self.old job }
        requires space { length self.old.holdings < self.old.space }
        ensures { Looks X.share self.old job result self.new }
    {
        let (wait, came) = self.wait_of(job);
        if came {
            self.bring(wait.at, job, 0);
            return FloorLook::Granted(0);
        }
        match self.shares[wait.at as usize].look(job, wait.round, wait.place()) {
            FloorLook::Pending => FloorLook::Pending,
            FloorLook::Granted(element) => {
                self.bring(wait.at, job, element);
                FloorLook::Granted(element)
            }
        }
    }

    /// The job gives its wait up: it leaves the line, where the wait still stands there, and takes
    /// an arrival back.
    pub fn leave<R: Wait>(&mut self, rt: &R, job: u32) -> FloorLeave
        requires wait { CanEndWait X.share self.old job }
        requires space { length self.old.holdings < self.old.space }
        requires own { job < length self.old.rounds }
        requires each { length (own_rounds self.old.rounds job) ≡ length self.old.kinds }
        ensures { Leaves X.share self.old job result self.new }
    {
        let (wait, came) = self.wait_of(job);
        if came {
            self.bring(wait.at, job, 0);
            return FloorLeave::Late(0);
        }
        match self.ask_leave(rt, job, wait) {
            FloorLeave::Gone => {
                self.give_up(job, wait);
                FloorLeave::Gone
            }
            FloorLeave::Late(element) => {
                self.bring(wait.at, job, element);
                FloorLeave::Late(element)
            }
        }
    }

    /// How a resource stands.
    pub fn end(&self, at: u32) -> FloorEnd
        requires { CanEndAt X.share self.now at }
        ensures { Ends X.share self.now at result }
    {
        self.shares[at as usize].end(self.kinds[at as usize])
    }

    /// The wait of a job that waits, and whether it came with its number.
    #[inline]
    fn wait_of(&self, job: u32) -> (FloorWait, bool)
        requires { CanEndWait X.share self.now job }
        ensures was { slice_get self.now.spots job
            ≡ Some (record { wait = Some result.0; came = result.1 }) }
        ensures place { result.0.at < length self.now.kinds }
        ensures share { result.1 ≡ false → HasAt self.now.shares result.0.at
            (calls.CanEnd X.share job result.0.round (place_in result.0)) }
    {
        let spot = self.spots[job as usize];
        match spot.wait {
            Some(wait) => (wait, spot.came),
            None => unreachable!(),
        }
    }

    /// The resource of a wait is asked to let it go.
    fn ask_leave<R: Wait>(&mut self, rt: &R, job: u32, wait: FloorWait) -> FloorLeave
        requires { HasAt self.old.shares wait.at
            (calls.CanEnd X.share job wait.round (place_in wait)) }
        ensures calls { Calls self.old.shares wait.at (λ x y. calls.Leaves X.share job x wait.round
            (place_in wait) result y) self.new.shares }
        ensures same { self.new ≡ with_shares self.old self.new.shares }
    {
        self.shares[wait.at as usize].leave(rt, job, wait.round, wait.place())
    }

    /// The wait of a job is over, and nothing came: an arrival is taken back.
    fn give_up(&mut self, job: u32, wait: FloorWait)
        requires job { job < length self.old.spots }
        requires own { job < length self.old.rounds }
        requires each { length (own_rounds self.old.rounds job) ≡ length self.old.kinds }
        ensures { self.new ≡ with_back (without_wait self.old job) job wait }
    {
        self.end_wait(job);
        let kinds = self.kinds.as_slice();
        take_back(kinds, &mut self.rounds, job, wait.at, wait.round);
    }

    /// The wait of a job is over.
    fn end_wait(&mut self, job: u32)
        requires { job < length self.old.spots }
        ensures { self.new ≡ without_wait self.old job }
    {
        self.spots[job as usize].wait = None;
    }

    /// The wait of a job is over, and it has what came, where the resource can be held.
    fn bring(&mut self, at: u32, job: u32, element: u32)
        requires job { job < length self.old.spots }
        requires place { at < length self.old.kinds }
        requires space { length self.old.holdings < self.old.space }
        ensures { self.new ≡ with_grant self.old at job element }
    {
        self.end_wait(job);
        hold_brought(
            &mut self.holdings,
            self.kinds[at as usize],
            at,
            job,
            element,
        );
    }
}

/// The round in which a job arrives next at a barrier.
fn round_of(rounds: &Vec<Vec<u32>>, at: u32, job: u32) -> u32
    requires own { job < length rounds.now.items }
    requires each { at < length (own_rounds (map (λ own. own.items) rounds.now.items) job) }
    ensures { result ≡ own_round (map (λ own. own.items) rounds.now.items) job at }
{
    rounds[job as usize][at as usize]
}

/// After an arrival the job arrives in the next round there, where it wasn't turned away.
fn count_round(rounds: &mut Vec<Vec<u32>>, at: u32, job: u32, came: Came)
    requires own { job < length rounds.old.items }
    requires each { at < length (own_rounds (map (λ own. own.items) rounds.old.items) job) }
    requires few { own_round (map (λ own. own.items) rounds.old.items) job at < 64 }
    ensures { map (λ own. own.items) rounds.new.items
        ≡ and_arrived (map (λ own. own.items) rounds.old.items) at job came }
{
    match came {
        Came::Now(_) | Came::Under(_) | Came::Waits(_) => next_round(rounds, at, job),
        Came::Worn => {}
    }
}

fn next_round(rounds: &mut Vec<Vec<u32>>, at: u32, job: u32)
    requires own { job < length rounds.old.items }
    requires each { at < length (own_rounds (map (λ own. own.items) rounds.old.items) job) }
    requires few { own_round (map (λ own. own.items) rounds.old.items) job at < 64 }
    ensures { map (λ own. own.items) rounds.new.items
        ≡ with_arrival (map (λ own. own.items) rounds.old.items) job at }
{
    let own = &mut rounds[job as usize];
    let round = own[at as usize];
    own[at as usize] = round + 1;
}
