//! A worker's way to its floor: each call goes through the gate.

ghost use Rattle.std.specs.Prelude.{◌≡◌, ◌<◌, true};
ghost use Rattle.cqs_plan.specs.Floor.{IsJob, IsHolding, IsWaiting, IsIdle, IsHoldable, IsLatch, HasRound, room_at, round_of};
ghost use Rattle.cqs_floor_shared.specs.Shared.{kind_at, parties_at};
ghost use Rattle.cqs_floor_shared.specs.Calls.{Takes, Gives, HasLooked, HasLeft, Downs, Waits, Arrives, answer_of};
ghost use Rattle.cqs_work.specs.Gated.{HasTold, next_call};
ghost use Rattle.cqs_work.specs.Hands.{gate_of};

use crate::gate::Gate;
use crate::waits::Waited;
use cqs_floor_shared::{SharedFloor, SharedGive, Turned};
use cqs_plan::{FloorDown, FloorLeave, FloorLook, FloorTake};
use std::sync::Wait;
use std::thread::Threads;

/// A worker and its floor.
#[derive(Drop)]
pub struct Clerk<'a, R, G, F> {
    pub rt: &'a R,
    pub gate: &'a G,
    pub worker: u32,
    /// How many calls it has made.
    pub calls: u32,
    pub floor: F,
    /// Which waits its jobs were told, in order.
    pub waits: Vec<Waited>,
}

impl<R: Threads + Wait, G: Gate, F: SharedFloor> Clerk<'_, R, G, F> {
    fn start_call(&mut self)
        ensures floor { self.new.floor ≡ self.old.floor }
        ensures waits { self.new.waits.items ≡ self.old.waits.items }
        ensures worker { self.new.worker ≡ self.old.worker }
        ensures gate { self.new.gate.now ≡ self.old.gate.now }
        ensures call { self.new.calls ≡ next_call self.old.calls }
        ensures begun { G.begun self.new.gate.now self.new.worker self.new.calls ≡ true }
    {
        self.calls = self.calls.saturating_add(1);
        self.gate.before(self.rt, self.worker, self.calls);
    }

    fn end_call(&self)
        ensures { G.ended self.now.gate.now self.now.worker self.now.calls ≡ true }
    {
        self.gate.after(self.rt, self.worker, self.calls);
    }

    pub fn take(&mut self, at: u32, job: u32) -> Result<FloorTake, Turned>
        requires resource { IsHoldable (kind_at (F.shared self.old.floor) at) }
        requires job { IsJob (F.shared self.old.floor).board job }
        requires idle { IsIdle (F.shared self.old.floor).board job }
        requires room { 0 < room_at (F.shared self.old.floor).board at }
        ensures takes { Takes (F.shared self.old.floor) at job (answer_of result)
            (F.shared self.new.floor) }
        ensures waits { self.new.waits.items ≡ self.old.waits.items }
        ensures told { HasTold (gate_of G.begun G.ended self.old)
            (gate_of G.begun G.ended self.new) 1 }
    {
        self.start_call();
        let answer = self.floor.take(self.rt, at, job);
        self.end_call();
        answer
    }

    pub fn give(&mut self, at: u32, job: u32) -> SharedGive
        requires resource { IsHoldable (kind_at (F.shared self.old.floor) at) }
        requires job { IsJob (F.shared self.old.floor).board job }
        requires holds { IsHolding (F.shared self.old.floor).board at job }
        ensures gives { Gives (F.shared self.old.floor) at job result (F.shared self.new.floor) }
        ensures waits { self.new.waits.items ≡ self.old.waits.items }
        ensures told { HasTold (gate_of G.begun G.ended self.old)
            (gate_of G.begun G.ended self.new) 1 }
    {
        self.start_call();
        let answer = self.floor.give(self.rt, at, job);
        self.end_call();
        answer
    }

    pub fn look(&mut self, job: u32) -> FloorLook
        requires job { IsJob (F.shared self.old.floor).board job }
        requires waits { IsWaiting (F.shared self.old.floor).board job }
        ensures looks { HasLooked (F.shared self.old.floor) job result (F.shared self.new.floor) }
        ensures waits { self.new.waits.items ≡ self.old.waits.items }
        ensures told { HasTold (gate_of G.begun G.ended self.old)
            (gate_of G.begun G.ended self.new) 1 }
    {
        self.start_call();
        let answer = self.floor.look(self.rt, job);
        self.end_call();
        answer
    }

    pub fn leave(&mut self, job: u32) -> FloorLeave
        requires job { IsJob (F.shared self.old.floor).board job }
        requires waits { IsWaiting (F.shared self.old.floor).board job }
        ensures leaves { HasLeft (F.shared self.old.floor) job result (F.shared self.new.floor) }
        ensures waits { self.new.waits.items ≡ self.old.waits.items }
        ensures told { HasTold (gate_of G.begun G.ended self.old)
            (gate_of G.begun G.ended self.new) 1 }
    {
        self.start_call();
        let answer = self.floor.leave(self.rt, job);
        self.end_call();
        answer
    }

    pub fn down(&mut self, at: u32) -> FloorDown
        requires resource { IsLatch (kind_at (F.shared self.old.floor) at) }
        ensures downs { Downs (F.shared self.old.floor) at result (F.shared self.new.floor) }
        ensures waits { self.new.waits.items ≡ self.old.waits.items }
        ensures told { HasTold (gate_of G.begun G.ended self.old)
            (gate_of G.begun G.ended self.new) 1 }
    {
        self.start_call();
        let answer = self.floor.down(self.rt, at);
        self.end_call();
        answer
    }

    pub fn wait(&mut self, at: u32, job: u32) -> Result<FloorTake, Turned>
        requires resource { IsLatch (kind_at (F.shared self.old.floor) at) }
        requires job { IsJob (F.shared self.old.floor).board job }
        requires idle { IsIdle (F.shared self.old.floor).board job }
        requires room { 0 < room_at (F.shared self.old.floor).board at }
        ensures comes { Waits (F.shared self.old.floor) at job (answer_of result)
            (F.shared self.new.floor) }
        ensures waits { self.new.waits.items ≡ self.old.waits.items }
        ensures told { HasTold (gate_of G.begun G.ended self.old)
            (gate_of G.begun G.ended self.new) 1 }
    {
        self.start_call();
        let answer = self.floor.wait(self.rt, at, job);
        self.end_call();
        answer
    }

    pub fn arrive(&mut self, at: u32, job: u32) -> Result<FloorTake, Turned>
        requires resource { HasRound (kind_at (F.shared self.old.floor) at)
            (round_of (F.shared self.old.floor).board job at) }
        requires job { IsJob (F.shared self.old.floor).board job }
        requires idle { IsIdle (F.shared self.old.floor).board job }
        requires room { 0 < room_at (F.shared self.old.floor).board at }
        requires party { 0 < parties_at (F.shared self.old.floor) at
            (round_of (F.shared self.old.floor).board job at) }
        ensures comes { Arrives (F.shared self.old.floor) at job (answer_of result)
            (F.shared self.new.floor) }
        ensures waits { self.new.waits.items ≡ self.old.waits.items }
        ensures told { HasTold (gate_of G.begun G.ended self.old)
            (gate_of G.begun G.ended self.new) 1 }
    {
        self.start_call();
        let answer = self.floor.arrive(self.rt, at, job);
        self.end_call();
        answer
    }
}
