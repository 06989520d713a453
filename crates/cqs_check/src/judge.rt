//! The judge of one entry after the other: it keeps what the plain semaphore is after them.

ghost use Rattle.std.specs.Prelude.{◌≡◌, ◌+◌, ◌-◌, ◌<◌, ◌≤◌, ◌^◌, IfOk, OnOk, ℕ, Some, IsSome, true, length, take, slice_get};
ghost use Rattle.cqs_core.specs.declared.entries.Entry.TheVariants as entry;
ghost use Rattle.cqs_core.specs.SemaphoreObject.{Semaphore, opening};
ghost use Rattle.cqs_check.specs.declared.waits.WaitState.TheVariants as became;
ghost use Rattle.cqs_core.specs.QueueWaiters.{Waits};
ghost use Rattle.cqs_check.specs.Doors.{many_of};
ghost use Rattle.cqs_check.specs.Judging.{IsJudge, Judged, Stands, HasRoom, DropsOut, TurnsBack, early_in, line_of, owner_in, total_of};

use crate::broken::Broken;
use crate::door::Door;
use crate::waits::{Table, WaitState};
use cqs_core::Entry;
use std::alloc::{AllocError, Global};

/// What the plain semaphore is after the entries so far.
#[derive(Drop)]
pub struct Judge {
    pub free: u32,
    pub way: u32,
    pub held: u32,
    pub in_line: u32,
    pub door: Door,
    pub broken: Broken,
    pub table: Table,
}

impl Judge {
    /// A free permit is taken.
    fn take(&mut self) -> bool
        requires { IsJudge self.old }
        ensures now { (c : ℕ) → Judged self.old (entry.TakeNow c) result self.new }
        ensures tried { (c : ℕ) → Judged self.old (entry.TryGot c) result self.new }
    {
        if self.free == 0 {
            return false;
        }
        self.free -= 1;
        self.held += 1;
        true
    }

    /// A try finds none free.
    fn find_busy(&self) -> bool
        requires { IsJudge self.now }
        ensures { (c : ℕ) → Judged self.now (entry.TryBusy c) result self.now }
    {
        self.free == 0
    }

    /// A caller comes to the door.
    fn come(&mut self, caller: u32) -> Result<bool, AllocError>
        requires judge { IsJudge self.old }
        requires few { total_of self.old.door + 1 < 2 ^ 32 }
        ensures { IfOk result (λ admits. Judged self.old (entry.TakeDoor caller) admits self.new) }
    {
        if self.free > 0 {
            return Ok(false);
        }
        self.door.come(caller)?;
        Ok(true)
    }

    /// A caller goes from the door to the end of the line, or to its number, where that was broken.
    fn enter(&mut self, caller: u32, wait: u64) -> bool
        requires judge { IsJudge self.old }
        requires room { HasRoom self.old.table }
        ensures { Judged self.old (entry.Enter caller wait) result self.new }
    {
        if wait != self.table.waits.len() as u64 {
            return false;
        }
        if self.door.many(caller) == 0 {
            return false;
        }
        if self.broken.has(wait) {
            self.enter_broken(caller, wait);
            return true;
        }
        if self.broken.early() >= self.door.total() {
            return false;
        }
        self.door.go(caller);
        self.table.enter(caller);
        self.in_line += 1;
        true
    }

    /// A caller goes from the door to the next number, which was broken.
    fn enter_broken(&mut self, caller: u32, wait: u64)
        requires judge { IsJudge self.old }
        requires room { HasRoom self.old.table }
        requires next { wait ≡ length self.old.table.waits.items }
        requires there { 0 < many_of self.old.door caller }
        requires broken { IsSome (owner_in self.old.broken wait) }
        ensures { Judged self.old (entry.Enter caller wait) true self.new }
    {
        self.door.go(caller);
        self.broken.draw(wait, caller);
        self.table.pass_over();
    }

    /// How many wait for a permit: at the door, but for those who will come to a broken number,
    /// and in the line.
    fn due(&self) -> u64
        requires { IsJudge self.now }
        ensures { result ≡ total_of self.now.door + self.now.in_line - early_in self.now.broken }
    {
        let many = u64::from(self.door.total()) + u64::from(self.in_line);
        many.saturating_sub(u64::from(self.broken.early()))
    }

    /// A permit is given back, and nobody waits for one.
    fn give_free(&mut self) -> bool
        requires { IsJudge self.old }
        ensures { (c : ℕ) → Judged self.old (entry.GiveFreed c) result self.new }
    {
        if self.held == 0 || u64::from(self.way) != self.due() {
            return false;
        }
        self.held -= 1;
        self.free += 1;
        true
    }

    /// A permit is given back, and is on its way to the line.
    fn give_on(&mut self) -> bool
        requires { IsJudge self.old }
        ensures { (c : ℕ) → Judged self.old (entry.GiveSent c) result self.new }
    {
        if self.held == 0 || u64::from(self.way) >= self.due() {
            return false;
        }
        self.held -= 1;
        self.way += 1;
        true
    }

    /// A permit on its way reaches a wait.
    fn deliver(&mut self, wait: u64) -> bool
        requires { IsJudge self.old }
        ensures { Judged self.old (entry.Deliver wait) result self.new }
    {
        match self.table.among_first(self.way, wait) {
            Some(caller) => {
                self.table
                    .take_out(wait as usize, WaitState::Served(caller));
                self.in_line -= 1;
                self.way -= 1;
                self.held += 1;
                true
            }
            None => false,
        }
    }

    /// A permit on its way is taken back, and its number is broken.
    fn spoil(&mut self, wait: u64) -> Result<bool, AllocError>
        requires { IsJudge self.old }
        ensures { IfOk result
            (λ admits. (c : ℕ) → Judged self.old (entry.Spoil c wait) admits self.new) }
    {
        match self.table.among_first(self.way, wait) {
            Some(owner) => {
                self.spoil_wait(owner, wait)?;
                Ok(true)
            }
            None => self.spoil_early(wait),
        }
    }

    /// A permit on its way to a wait of the line is taken back.
    fn spoil_wait(&mut self, owner: u32, wait: u64) -> Result<(), AllocError>
        requires judge { IsJudge self.old }
        requires among { Waits wait owner (take self.old.way (line_of self.old.table)) }
        ensures { OnOk result ((c : ℕ) → Judged self.old (entry.Spoil c wait) true self.new) }
    {
        self.broken.add_drawn(wait, owner)?;
        self.table.take_out(wait as usize, WaitState::Gone);
        self.in_line -= 1;
        self.way -= 1;
        self.held += 1;
        Ok(())
    }

    /// A permit on its way to a number that nobody has drawn is taken back.
    fn spoil_early(&mut self, wait: u64) -> Result<bool, AllocError>
        requires judge { IsJudge self.old }
        requires none { (c : ℕ) → ¬ Waits wait c (take self.old.way (line_of self.old.table)) }
        ensures { IfOk result
            (λ admits. (c : ℕ) → Judged self.old (entry.Spoil c wait) admits self.new) }
    {
        if wait < self.table.waits.len() as u64 {
            return Ok(false);
        }
        if self.broken.has(wait) {
            return Ok(false);
        }
        if self.way == 0 {
            return Ok(false);
        }
        if self.broken.early() >= self.door.total() {
            return Ok(false);
        }
        self.broken.add_early(wait)?;
        self.way -= 1;
        self.held += 1;
        Ok(true)
    }

    /// A caller comes to its number, which was broken.
    fn undo(&mut self, caller: u32, wait: u64) -> bool
        requires { IsJudge self.old }
        ensures { Judged self.old (entry.Undo caller wait) result self.new }
    {
        if !self.broken.is_of(wait, caller) {
            return false;
        }
        self.broken.remove(wait);
        true
    }

    /// A caller leaves the line. A permit on its way for which nobody waits then is free again.
    fn leave(&mut self, caller: u32, wait: u64) -> bool
        requires { IsJudge self.old }
        ensures { Judged self.old (entry.Leave caller wait) result self.new }
    {
        if !self.table.waits_for(caller, wait) {
            return false;
        }
        self.drop_out(caller, wait);
        self.turn_back();
        true
    }

    /// A wait is in the line no longer.
    fn drop_out(&mut self, caller: u32, wait: u64)
        requires judge { IsJudge self.old }
        requires stands { slice_get self.old.table.waits.items wait ≡ Some (became.Waiting caller) }
        ensures { DropsOut self.old caller wait self.new }
    {
        self.table.take_out(wait as usize, WaitState::Gone);
        self.in_line -= 1;
    }

    /// A permit on its way is free again, where more are on their way than wait.
    fn turn_back(&mut self)
        requires { IsJudge self.old }
        ensures { TurnsBack self.old self.new }
    {
        if u64::from(self.way) <= self.due() {
            return;
        }
        self.way -= 1;
        self.free += 1;
    }

    /// A caller looks at its wait, and it still stands in the line.
    fn look_in_vain(&self, caller: u32, wait: u64) -> bool
        requires { IsJudge self.now }
        ensures { Judged self.now (entry.LookPending caller wait) result self.now }
    {
        if !self.table.waits_for(caller, wait) {
            return false;
        }
        true
    }

    /// A caller has what came for its wait.
    fn collect(&mut self, caller: u32, wait: u64) -> bool
        requires { IsJudge self.old }
        ensures granted { Judged self.old (entry.LookGranted caller wait) result self.new }
        ensures late { Judged self.old (entry.Late caller wait) result self.new }
    {
        if !self.table.served_for(caller, wait) {
            return false;
        }
        self.table.change(wait as usize, WaitState::Closed(caller));
        true
    }

    /// A judge of a semaphore with all its permits free, with room for so many waits.
    pub fn new(alloc: Global, permits: u32, most: u32) -> Result<Self, AllocError>
        requires { permits ≤ 1048576 }
        ensures { IfOk result (λ j. IsJudge j × Stands j (opening permits)) }
    {
        let table = Table::new(alloc, most)?;
        Ok(Judge {
            free: permits,
            way: 0,
            held: 0,
            in_line: 0,
            door: Door::new(alloc),
            broken: Broken::new(alloc),
            table,
        })
    }

    /// Judges one more entry: whether it may come after those so far.
    pub fn admits(&mut self, entry: Entry) -> Result<bool, AllocError>
        requires { IsJudge self.old }
        ensures { IfOk result (λ admits. Judged self.old entry admits self.new) }
    {
        match entry {
            Entry::TakeNow { .. } | Entry::TryGot { .. } => Ok(self.take()),
            Entry::TryBusy { .. } => Ok(self.find_busy()),
            Entry::TakeDoor { pass } => {
                if self.door.total() == u32::MAX {
                    return Err(AllocError);
                }
                self.come(pass)
            }
            Entry::Enter { pass, wait } => {
                if !self.table.has_room() {
                    return Err(AllocError);
                }
                Ok(self.enter(pass, wait))
            }
            Entry::GiveFreed { .. } => Ok(self.give_free()),
            Entry::GiveSent { .. } => Ok(self.give_on()),
            Entry::Deliver { wait } => Ok(self.deliver(wait)),
            Entry::Spoil { wait, .. } => self.spoil(wait),
            Entry::Undo { pass, wait } => Ok(self.undo(pass, wait)),
            Entry::Leave { pass, wait } => Ok(self.leave(pass, wait)),
            Entry::LookPending { pass, wait } => Ok(self.look_in_vain(pass, wait)),
            Entry::LookGranted { pass, wait } | Entry::Late { pass, wait } => {
                Ok(self.collect(pass, wait))
            }
        }
    }
}
