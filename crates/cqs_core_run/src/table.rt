//! The runnable table of events: its words, its cells, and one method for each kind of event.
//!
//! Each method makes its row of the table or answers `None` where the row isn't allowed. None
//! of them takes memory: `reserve` makes room before. What makes a table a core of a fair
//! semaphore is told in `runnable`.

ghost use Rattle.std.specs.Prelude.{◌≡◌, ◌+◌, ◌-◌, ◌≤◌, ◌<◌, OnOk, OnErr, Err, slice_get, length, vec_len, vec_capacity, replicate, IfOk, IfSome, pos, true, false};
ghost use Rattle.cqs_core.specs.declared.events.Event.TheVariants as event;
ghost use Rattle.cqs_core.specs.QueueMoves.{cells_drawn, cells_reached};
ghost use Rattle.cqs_core.specs.SemaphoreAnswers.{MakesReady, HasPassed};
ghost use Rattle.cqs_core.specs.SemaphoreTable.{step, is_with as wait_is_with};
ghost use Rattle.cqs_core.specs.SemaphoreCores.{opening_of};
ghost use Rattle.cqs_core.specs.Resting.{IsResting};
ghost use Rattle.cqs_core.specs.SemaphoreWords.{FitsWords};

use cqs_core::{CoreCell, CoreState, Doing, Entry, Event, Outcome};
use std::alloc::{AllocError, Global};
use std::marker::Model;

/// The state word stays above this, so that it fits the packed word.
const LOWEST: i64 = -4_294_967_295;

/// A counter that has come to this number draws no more.
const LAST_NUMBER: u64 = 1_099_511_627_775;

/// What the events change.
#[derive(Drop)]
pub struct Table {
    sync: bool,
    permits: u32,
    state: i64,
    suspends: u64,
    resumes: u64,
    cells: Vec<CoreCell>,
    doing: Vec<Doing>,
    held: Vec<u32>,
    history: Vec<Entry>,
}

impl Model for Table {
    ghost use Rattle.std.specs.Prelude.{◌-◌, min, vec_len, vec_capacity};
    ghost use Rattle.cqs_core.specs.SemaphoreAnswers.{Room};

    ghost Value = { Room };

    ghost view = { λ t. record {
      shape = record {
        sync = t.sync;
        permits = t.permits;
        state = t.state;
        held = t.held.items;
        history = t.history.items;
        queue = record {
          suspends = t.suspends;
          resumes = t.resumes;
          cells = t.cells.items;
          doing = t.doing.items;
        };
      };
      spare = min (vec_capacity t.history - vec_len t.history)
          (vec_capacity t.cells - vec_len t.cells);
    } };
}

impl Table {
    /// A table before any event: every permit is free, and every pass is idle.
    pub fn new(alloc: Global, sync: bool, permits: u32, passes: u32) -> Result<Self, AllocError>
        ensures { IfOk result (λ table. table.shape ≡ opening_of sync permits passes) }
    {
        Ok(Table {
            sync,
            permits,
            state: i64::from(permits),
            suspends: 0,
            resumes: 0,
            cells: Vec::new(alloc),
            doing: vec![in alloc; Doing::Idle; passes as usize]?,
            held: vec![in alloc; 0u32; passes as usize]?,
            history: Vec::new(alloc),
        })
    }

    pub fn state(&self) -> i64
        ensures { result ≡ self.now.shape.state }
    {
        self.state
    }

    pub fn suspends(&self) -> u64
        ensures { result ≡ self.now.shape.queue.suspends }
    {
        self.suspends
    }

    pub fn resumes(&self) -> u64
        ensures { result ≡ self.now.shape.queue.resumes }
    {
        self.resumes
    }

    pub fn history(&self) -> &[Entry]
        ensures { result.now ≡ self.now.shape.history }
    {
        &self.history
    }

    /// How many permits a pass holds; none where there is no such pass.
    pub fn held(&self, pass: u32) -> Option<u32>
        ensures { result ≡ slice_get self.now.shape.held pass }
    {
        self.held.get(pass as usize).copied()
    }

    /// What a pass is doing; none where there is no such pass.
    pub fn doing(&self, pass: u32) -> Option<Doing>
        ensures { result ≡ slice_get self.now.shape.queue.doing pass }
    {
        self.doing.get(pass as usize).copied()
    }

    /// Whether every pass is idle, and a further number may be drawn.
    pub fn is_resting(&self) -> bool
        ensures rests { result ≡ true → IsResting self.now.shape }
        ensures busy { result ≡ false → ¬ IsResting self.now.shape }
    {
        self.suspends < LAST_NUMBER && self.doing.iter().all(|doing| matches!(doing, Doing::Idle))
    }

    /// The cell of a number; none where neither counter has passed it.
    pub fn cell(&self, number: u64) -> Option<CoreCell>
        ensures { result ≡ slice_get self.now.shape.queue.cells number }
    {
        self.cells.get(number as usize).copied()
    }

    /// Makes room for so many further entries and cells.
    pub fn reserve(&mut self, more: u32) -> Result<(), AllocError>
        ensures ok { OnOk result (more ≤ self.new.spare) }
        ensures full { OnErr result (self.old.spare < more) }
        ensures same { self.new.shape ≡ self.old.shape }
        ensures kept { self.old.spare ≤ self.new.spare }
    {
        self.history.reserve(more as usize)?;
        self.cells.reserve(more as usize)?;
        Ok(())
    }

    /// Acquire: one is taken from the state.
    pub fn take(&mut self, pass: u32) -> Option<Outcome>
        requires fits { FitsWords self.old.shape }
        requires room { 1 ≤ self.old.spare }
        ensures { MakesReady (step self.old.shape (event.Take pass)) result self.old self.new }
    {
        let at = pass as usize;
        let Some(Doing::Idle) = self.doing(pass) else {
            return None;
        };
        if self.state <= LOWEST {
            return None;
        }
        if self.state > 0 {
            self.state -= 1;
            self.held[at] += 1;
            self.history.push_reserved(Entry::TakeNow { pass });
            Some(Outcome::Now)
        } else {
            self.state -= 1;
            self.doing[at] = Doing::Door;
            self.history.push_reserved(Entry::TakeDoor { pass });
            Some(Outcome::Door)
        }
    }

    /// Try to acquire: the state is loaded.
    pub fn try_load(&mut self, pass: u32) -> Option<Outcome>
        requires room { 1 ≤ self.old.spare }
        ensures { MakesReady (step self.old.shape (event.TryLoad pass)) result self.old self.new }
    {
        let at = pass as usize;
        let Some(Doing::Idle) = self.doing(pass) else {
            return None;
        };
        if self.state <= 0 {
            self.history.push_reserved(Entry::TryBusy { pass });
            Some(Outcome::Busy)
        } else {
            self.doing[at] = Doing::TryAt(self.state);
            Some(Outcome::Loaded(self.state))
        }
    }

    /// Try to acquire: the state is exchanged, if it is still the one that was loaded.
    pub fn try_swap(&mut self, pass: u32) -> Option<Outcome>
        requires fits { FitsWords self.old.shape }
        requires room { 1 ≤ self.old.spare }
        ensures { MakesReady (step self.old.shape (event.TrySwap pass)) result self.old self.new }
    {
        let at = pass as usize;
        let Some(Doing::TryAt(saw)) = self.doing(pass) else {
            return None;
        };
        let found = self.state;
        if found == saw {
            self.state -= 1;
            self.held[at] += 1;
            self.doing[at] = Doing::Idle;
            self.history.push_reserved(Entry::TryGot { pass });
            Some(Outcome::Got)
        } else {
            self.doing[at] = Doing::Idle;
            Some(Outcome::Contended { saw, found })
        }
    }

    /// Suspend: the next number is drawn.
    pub fn draw(&mut self, pass: u32) -> Option<Outcome>
        requires room { 1 ≤ self.old.spare }
        ensures { MakesReady (step self.old.shape (event.Draw pass)) result self.old self.new }
    {
        let at = pass as usize;
        let Some(Doing::Door) = self.doing(pass) else {
            return None;
        };
        let number = self.suspends;
        if number >= LAST_NUMBER {
            return None;
        }
        draw_cell(&mut self.cells, number, pass);
        self.suspends = number + 1;
        self.doing[at] = Doing::Drawn(number);
        self.history
            .push_reserved(Entry::Enter { pass, wait: number });
        Some(Outcome::Drew(number))
    }

    /// Suspend: the drawn cell gets a waiter, or gives its value.
    pub fn install(&mut self, pass: u32) -> Option<Outcome>
        requires fits { FitsWords self.old.shape }
        requires room { 1 ≤ self.old.spare }
        ensures { MakesReady (step self.old.shape (event.Install pass)) result self.old self.new }
    {
        let at = pass as usize;
        let Some(Doing::Drawn(number)) = self.doing(pass) else {
            return None;
        };
        let cell = self.cell(number)?;
        match cell.state {
            CoreState::Empty => {
                self.cells[number as usize].state = CoreState::Waiter;
                self.doing[at] = Doing::Idle;
                Some(Outcome::Waits(number))
            }
            CoreState::Value => {
                self.cells[number as usize] = CoreCell {
                    state: CoreState::Taken,
                    owner: cell.owner,
                    collected: true,
                };
                self.held[at] += 1;
                self.doing[at] = Doing::Idle;
                self.history.push_reserved(Entry::Deliver { wait: number });
                Some(Outcome::Took(number))
            }
            CoreState::Broken => {
                self.cells[number as usize].collected = true;
                self.doing[at] = Doing::Idle;
                self.history
                    .push_reserved(Entry::Undo { pass, wait: number });
                Some(Outcome::Broke(number))
            }
            CoreState::Waiter
            | CoreState::Taken
            | CoreState::Resumed
            | CoreState::Cancelling
            | CoreState::Delegated
            | CoreState::Cancelled
            | CoreState::Refused => None,
        }
    }

    /// Release: one is added to the state.
    pub fn give(&mut self, pass: u32) -> Option<Outcome>
        requires fits { FitsWords self.old.shape }
        requires room { 1 ≤ self.old.spare }
        ensures { MakesReady (step self.old.shape (event.Give pass)) result self.old self.new }
    {
        let at = pass as usize;
        let Some(Doing::Idle) = self.doing(pass) else {
            return None;
        };
        if self.held[at] == 0 {
            return None;
        }
        let somebody_waits = self.state < 0;
        self.held[at] -= 1;
        self.state += 1;
        if somebody_waits {
            self.doing[at] = Doing::Owes;
            self.history.push_reserved(Entry::GiveSent { pass });
            Some(Outcome::Owes)
        } else {
            self.history.push_reserved(Entry::GiveFreed { pass });
            Some(Outcome::Freed)
        }
    }

    /// Resume: the next number is drawn.
    pub fn reach(&mut self, pass: u32) -> Option<Outcome>
        requires room { 1 ≤ self.old.spare }
        ensures made { MakesReady (step self.old.shape (event.Reach pass))
            result self.old self.new }
        ensures spare { self.old.shape.queue.resumes < length self.old.shape.queue.cells
            → self.old.spare ≤ self.new.spare }
    {
        let at = pass as usize;
        let Some(Doing::Owes) = self.doing(pass) else {
            return None;
        };
        let number = self.resumes;
        if number >= LAST_NUMBER {
            return None;
        }
        reach_cell(&mut self.cells, number);
        self.resumes = number + 1;
        self.doing[at] = Doing::Ticket(number);
        Some(Outcome::Reached(number))
    }

    /// Resume: the drawn cell is served, gets the value, is passed over, or ends the resumption.
    pub fn meet(&mut self, pass: u32) -> Option<Outcome>
        requires room { 1 ≤ self.old.spare }
        ensures made { MakesReady (step self.old.shape (event.Meet pass)) result self.old self.new }
        ensures spare { IfSome result HasPassed → self.old.spare ≤ self.new.spare }
    {
        let at = pass as usize;
        let Some(Doing::Ticket(number)) = self.doing(pass) else {
            return None;
        };
        let cell = self.cell(number)?;
        match cell.state {
            CoreState::Waiter => {
                self.cells[number as usize].state = CoreState::Resumed;
                self.doing[at] = Doing::Idle;
                self.history.push_reserved(Entry::Deliver { wait: number });
                Some(Outcome::Served(number))
            }
            CoreState::Empty => {
                self.cells[number as usize].state = CoreState::Value;
                self.doing[at] = if self.sync {
                    Doing::Watching(number)
                } else {
                    Doing::Idle
                };
                Some(Outcome::Left(number))
            }
            CoreState::Cancelling if self.sync => Some(Outcome::Handling(number)),
            CoreState::Cancelling => {
                self.cells[number as usize].state = CoreState::Delegated;
                self.doing[at] = Doing::Idle;
                Some(Outcome::Left(number))
            }
            CoreState::Cancelled => {
                self.doing[at] = Doing::Owes;
                Some(Outcome::Passed(number))
            }
            CoreState::Refused => {
                self.doing[at] = Doing::Idle;
                Some(Outcome::Void(number))
            }
            CoreState::Value
            | CoreState::Taken
            | CoreState::Broken
            | CoreState::Resumed
            | CoreState::Delegated => None,
        }
    }

    /// Resume, synchronous: the cell in which the value was left is loaded.
    pub fn see(&mut self, pass: u32) -> Option<Outcome>
        ensures { MakesReady (step self.old.shape (event.See pass)) result self.old self.new }
    {
        let at = pass as usize;
        let Some(Doing::Watching(number)) = self.doing(pass) else {
            return None;
        };
        let cell = self.cell(number)?;
        match cell.state {
            CoreState::Value => Some(Outcome::Pending),
            CoreState::Taken => {
                self.doing[at] = Doing::Idle;
                Some(Outcome::Served(number))
            }
            CoreState::Empty
            | CoreState::Waiter
            | CoreState::Broken
            | CoreState::Resumed
            | CoreState::Cancelling
            | CoreState::Delegated
            | CoreState::Cancelled
            | CoreState::Refused => None,
        }
    }

    /// Resume, synchronous: the value is taken back, and its cell is broken; or it was taken.
    pub fn break_value(&mut self, pass: u32) -> Option<Outcome>
        requires fits { FitsWords self.old.shape }
        requires room { 1 ≤ self.old.spare }
        ensures { MakesReady (step self.old.shape (event.Break pass)) result self.old self.new }
    {
        let at = pass as usize;
        let Some(Doing::Watching(number)) = self.doing(pass) else {
            return None;
        };
        let cell = self.cell(number)?;
        match cell.state {
            CoreState::Value => {
                self.cells[number as usize].state = CoreState::Broken;
                self.held[at] += 1;
                self.doing[at] = Doing::Idle;
                self.history
                    .push_reserved(Entry::Spoil { pass, wait: number });
                Some(Outcome::Broke(number))
            }
            CoreState::Taken => {
                self.doing[at] = Doing::Idle;
                Some(Outcome::Served(number))
            }
            CoreState::Empty
            | CoreState::Waiter
            | CoreState::Broken
            | CoreState::Resumed
            | CoreState::Cancelling
            | CoreState::Delegated
            | CoreState::Cancelled
            | CoreState::Refused => None,
        }
    }

    /// Cancel: the waiter begins to leave, or finds itself served.
    pub fn leave(&mut self, pass: u32, wait: u64) -> Option<Outcome>
        requires fits { FitsWords self.old.shape }
        requires room { 1 ≤ self.old.spare }
        ensures { MakesReady (step self.old.shape (event.Leave pass wait))
            result self.old self.new }
    {
        let at = pass as usize;
        let Some(Doing::Idle) = self.doing(pass) else {
            return None;
        };
        let cell = self.cell(wait)?;
        if !is_with(pass, cell) {
            return None;
        }
        match cell.state {
            CoreState::Waiter => {
                self.cells[wait as usize].state = CoreState::Cancelling;
                self.doing[at] = Doing::Leaving(wait);
                Some(Outcome::Cancelling(wait))
            }
            CoreState::Resumed => {
                self.cells[wait as usize].collected = true;
                self.held[at] += 1;
                self.history.push_reserved(Entry::Late { pass, wait });
                Some(Outcome::TooLate(wait))
            }
            CoreState::Empty
            | CoreState::Value
            | CoreState::Taken
            | CoreState::Broken
            | CoreState::Cancelling
            | CoreState::Delegated
            | CoreState::Cancelled
            | CoreState::Refused => None,
        }
    }

    /// Cancel: one is added to the state, whose old value answers whether
    /// resumes pass over the cell.
    pub fn decide(&mut self, pass: u32) -> Option<Outcome>
        requires fits { FitsWords self.old.shape }
        requires room { 1 ≤ self.old.spare }
        ensures { MakesReady (step self.old.shape (event.Decide pass)) result self.old self.new }
    {
        let at = pass as usize;
        let Some(Doing::Leaving(wait)) = self.doing(pass) else {
            return None;
        };
        let passes_on = self.state < 0;
        self.state += 1;
        self.doing[at] = Doing::Decided { wait, passes_on };
        self.history.push_reserved(Entry::Leave { pass, wait });
        Some(Outcome::Decided(passes_on))
    }

    /// Cancel: the cell gets its last state.
    pub fn settle(&mut self, pass: u32) -> Option<Outcome>
        ensures made { MakesReady (step self.old.shape (event.Settle pass))
            result self.old self.new }
        ensures spare { self.old.spare ≤ self.new.spare }
    {
        let at = pass as usize;
        let Some(Doing::Decided { wait, passes_on }) = self.doing(pass) else {
            return None;
        };
        let cell = self.cell(wait)?;
        match (passes_on, cell.state) {
            (true, CoreState::Cancelling) => {
                self.cells[wait as usize].state = CoreState::Cancelled;
                self.doing[at] = Doing::Idle;
                Some(Outcome::Cancelled(wait))
            }
            (true, CoreState::Delegated) => {
                self.cells[wait as usize].state = CoreState::Cancelled;
                self.doing[at] = Doing::Owes;
                Some(Outcome::OwesOn(wait))
            }
            (false, CoreState::Cancelling | CoreState::Delegated) => {
                self.cells[wait as usize].state = CoreState::Refused;
                self.doing[at] = Doing::Idle;
                Some(Outcome::Refused(wait))
            }
            (
                _,
                CoreState::Empty
                | CoreState::Waiter
                | CoreState::Value
                | CoreState::Taken
                | CoreState::Broken
                | CoreState::Resumed
                | CoreState::Cancelled
                | CoreState::Refused,
            ) => None,
        }
    }

    /// Poll: the waiter looks whether it was served.
    pub fn look(&mut self, pass: u32, wait: u64) -> Option<Outcome>
        requires fits { FitsWords self.old.shape }
        requires room { 1 ≤ self.old.spare }
        ensures { MakesReady (step self.old.shape (event.Look pass wait)) result self.old self.new }
    {
        let at = pass as usize;
        let Some(Doing::Idle) = self.doing(pass) else {
            return None;
        };
        let cell = self.cell(wait)?;
        if !is_with(pass, cell) {
            return None;
        }
        match cell.state {
            CoreState::Waiter => {
                self.history
                    .push_reserved(Entry::LookPending { pass, wait });
                Some(Outcome::Pending)
            }
            CoreState::Resumed => {
                self.cells[wait as usize].collected = true;
                self.held[at] += 1;
                self.history
                    .push_reserved(Entry::LookGranted { pass, wait });
                Some(Outcome::Granted)
            }
            CoreState::Empty
            | CoreState::Value
            | CoreState::Taken
            | CoreState::Broken
            | CoreState::Cancelling
            | CoreState::Delegated
            | CoreState::Cancelled
            | CoreState::Refused => None,
        }
    }

    /// Makes one event, where the table allows it.
    pub fn step_ready(&mut self, event: Event) -> Option<Outcome>
        requires fits { FitsWords self.old.shape }
        requires room { 1 ≤ self.old.spare }
        ensures { MakesReady (step self.old.shape event) result self.old self.new }
    {
        match event {
            Event::Take { pass } => self.take(pass),
            Event::TryLoad { pass } => self.try_load(pass),
            Event::TrySwap { pass } => self.try_swap(pass),
            Event::Draw { pass } => self.draw(pass),
            Event::Install { pass } => self.install(pass),
            Event::Give { pass } => self.give(pass),
            Event::Reach { pass } => self.reach(pass),
            Event::Meet { pass } => self.meet(pass),
            Event::See { pass } => self.see(pass),
            Event::Break { pass } => self.break_value(pass),
            Event::Leave { pass, wait } => self.leave(pass, wait),
            Event::Decide { pass } => self.decide(pass),
            Event::Settle { pass } => self.settle(pass),
            Event::Look { pass, wait } => self.look(pass, wait),
        }
    }
}

/// The suspend of `pass` draws the cell of `number`, which is made if the
/// resumes haven't passed it.
fn draw_cell(cells: &mut Vec<CoreCell>, number: u64, pass: u32)
    requires { vec_len cells.old < vec_capacity cells.old }
    ensures drawn { cells.new.items
        ≡ cells_drawn cells.old.items number pass (slice_get cells.old.items number) }
    ensures capacity { vec_capacity cells.new ≡ vec_capacity cells.old }
    ensures len { vec_len cells.new ≤ vec_len cells.old + 1 }
{
    if number < cells.len() as u64 {
        cells[number as usize].owner = Some(pass);
    } else {
        cells.push_reserved(CoreCell {
            state: CoreState::Empty,
            owner: Some(pass),
            collected: false,
        });
    }
}

/// A resume draws the cell of `number`, which is made if the suspends haven't passed it.
fn reach_cell(cells: &mut Vec<CoreCell>, number: u64)
    requires { vec_len cells.old < vec_capacity cells.old }
    ensures reached { cells.new.items
        ≡ cells_reached cells.old.items (slice_get cells.old.items number) }
    ensures capacity { vec_capacity cells.new ≡ vec_capacity cells.old }
    ensures len { vec_len cells.new ≤ vec_len cells.old + 1 }
    ensures there { number < vec_len cells.old → vec_len cells.new ≡ vec_len cells.old }
{
    if number >= cells.len() as u64 {
        cells.push_reserved(CoreCell {
            state: CoreState::Empty,
            owner: None,
            collected: false,
        });
    }
}

/// Whether the cell's wait is this pass's, and isn't closed.
fn is_with(pass: u32, cell: CoreCell) -> bool
    ensures { result ≡ wait_is_with pass cell }
{
    match cell.owner {
        Some(owner) => owner == pass && !cell.collected,
        None => false,
    }
}
