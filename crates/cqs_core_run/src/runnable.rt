//! The runnable core: every core that is made and changed here shows a fair semaphore.

ghost use Rattle.std.specs.Prelude.{◌≡◌, ◌+◌, ◌<◌, ◌≤◌, true, false, Err, IfNone, IfOk, IfSome, IsErrOf, OnOk, OnErr, slice_get};
ghost use Rattle.cqs_core.specs.SemaphoreAnswers.{Makes, MakesReady, Opens};
ghost use Rattle.cqs_core.specs.SemaphoreCalls.{MakesCall, MakesCallReady, course};
ghost use Rattle.cqs_core.specs.SemaphoreEntries.{object_after, IsBalanced, IsLegal};
ghost use Rattle.cqs_core.specs.SemaphoreCores.{IsEitherCore, OpensEither, shown_by_either};
ghost use Rattle.cqs_core.specs.SemaphoreShown.{IsCore, Shows, shown_semaphore};
ghost use Rattle.cqs_core.specs.SemaphoreTable.{step};
ghost use Rattle.cqs_core.specs.Resting.{IsIdle, IsResting};
ghost use Rattle.cqs_core.specs.SoleCaller.{IsSoleCall, IsSoleRefusal, NoneTaken, ShowsNext, TellsWait};

mod events;

use crate::table::Table;
use cqs_core::{Call, CoreCell, CoreError, Doing, Entry, Event, Outcome, Reply};
pub use events::Outcomes;
use std::alloc::Global;
use std::marker::Model;

/// The most permits that a core may be made with.
const MOST_PERMITS: u32 = 1_048_576;

/// The most passes that a core may be made with.
const MOST_PASSES: u32 = 32;

/// A semaphore with its queue of cells, as plain data that makes one event after the other.
///
/// Contracts see its shape (the words, cells and passes, and the history so far) and its spare
/// room: for how many further entries and cells it has memory.
#[derive(Drop)]
pub struct Core {
    table: Table,
}

impl Model for Core {
    ghost use Rattle.cqs_core.specs.SemaphoreAnswers.{Room};
    ghost use Rattle.cqs_core.specs.SemaphoreCores.{IsEitherCore};

    ghost Value = { Room };

    ghost view = { λ core. core.table };

    ghost invariant = { λ core. IsEitherCore core.table.shape };
}

impl Core {
    /// A core with all its permits free, and with so many passes, each of them idle.
    ///
    /// There are 1 to 1,048,576 permits and 1 to 32 passes; any other number is `BadSize`.
    pub fn new(alloc: Global, permits: u32, passes: u32) -> Result<Self, CoreError>
        ensures made { Opens permits passes result }
        ensures rests { IfOk result (λ core. IsResting core.shape × NoneTaken core.shape) }
    {
        if permits == 0 || permits > MOST_PERMITS || passes == 0 || passes > MOST_PASSES {
            return Err(CoreError::BadSize);
        }
        let table = Table::new(alloc, false, permits, passes)?;
        Ok(Core { table })
    }

    /// A synchronous core, with the same numbers: a resume watches the value that it left, and may
    /// take it back and break its cell.
    pub fn new_sync(alloc: Global, permits: u32, passes: u32) -> Result<Self, CoreError>
        ensures made { OpensEither true permits passes result }
        ensures rests { IfOk result (λ core. IsResting core.shape × NoneTaken core.shape) }
    {
        if permits == 0 || permits > MOST_PERMITS || passes == 0 || passes > MOST_PASSES {
            return Err(CoreError::BadSize);
        }
        let table = Table::new(alloc, true, permits, passes)?;
        Ok(Core { table })
    }

    /// Makes one event, where the table of events allows it.
    pub fn step(&mut self, event: Event) -> Result<Outcome, CoreError>
        ensures made { Makes (step self.old.shape event) result self.old.shape self.new.shape }

        // It is out of memory only where there was no room for one entry and one cell, and it uses
        // no more than that.
        ensures memory { IsErrOf result CoreError.Memory → self.old.spare < 1 }
        ensures spare { self.old.spare ≤ self.new.spare + 1 }
    {
        self.reserve(1)?;
        match self.step_ready(event) {
            Some(outcome) => Ok(outcome),
            None => Err(CoreError::NotEnabled),
        }
    }

    /// Makes one event as `step` does, within the room that was reserved.
    fn step_ready(&mut self, event: Event) -> Option<Outcome>
        requires { 1 ≤ self.old.spare }
        ensures { MakesReady (step self.old.shape event) result self.old self.new }
    {
        self.table.step_ready(event)
    }

    /// Makes the events of a call, one after the other, until its pass is idle again.
    ///
    /// Where every pass is idle, no resume meets a cell whose value it would have to watch, nor one
    /// to which it would have to come back: so a synchronous core makes each call as another does.
    ///
    /// Room for all of them is made first, so that `Memory` leaves the core as it was.
    pub fn run_call(&mut self, call: Call) -> Result<Reply, CoreError>
        requires resting { IsResting self.old.shape }
        ensures made { MakesCall result (course self.old.shape call) self.old.shape self.new.shape }
        ensures sole { IfOk result
            (λ answer. IsSoleCall self.old.shape call answer self.new.shape) }
        ensures shown { IfOk result (λ _. ShowsNext self.old.shape call self.new.shape) }

        // It is out of memory only where there was no room for three entries and cells, and it uses
        // no more than that.
        ensures memory { IsErrOf result CoreError.Memory → self.old.spare < 3 }
        ensures spare { self.old.spare ≤ self.new.spare + 3 }
    {
        self.reserve(3)?;
        match self.run_ready(call) {
            Some(reply) => Ok(reply),
            None => Err(CoreError::NotEnabled),
        }
    }

    /// Makes room for so many further entries and cells. Its only error is `Memory`, where
    /// that room wasn't there.
    pub fn reserve(&mut self, more: u32) -> Result<(), CoreError>
        ensures ok { OnOk result (more ≤ self.new.spare) }
        ensures err { OnErr result (result ≡ Err CoreError.Memory) }
        ensures full { OnErr result (self.old.spare < more) }
        ensures same { self.new.shape ≡ self.old.shape }
        ensures kept { self.old.spare ≤ self.new.spare }
    {
        self.table.reserve(more)?;
        Ok(())
    }

    /// Makes the events of a call as `run_call` does, within the room that was reserved.
    pub fn run_ready(&mut self, call: Call) -> Option<Reply>
        requires resting { IsResting self.old.shape }
        requires room { 3 ≤ self.old.spare }
        ensures made { MakesCallReady (course self.old.shape call) result self.old self.new }
        ensures sole { IfSome result
            (λ answer. IsSoleCall self.old.shape call answer self.new.shape) }
        ensures shown { IfSome result (λ _. ShowsNext self.old.shape call self.new.shape) }
        ensures refused { IfNone result (IsSoleRefusal self.old.shape call) }
    {
        self.table.run_ready(call)
    }

    /// Whether every pass is idle, and a further number may be drawn: so that a whole call may be
    /// made.
    pub fn is_resting(&self) -> bool
        ensures rests { result ≡ true → IsResting self.now.shape }
        ensures busy { result ≡ false → ¬ IsResting self.now.shape }
    {
        self.table.is_resting()
    }

    /// The state word: the free permits, less those who wait with none on its way.
    pub fn state(&self) -> i64
        ensures { result ≡ self.now.shape.state }
    {
        self.table.state()
    }

    /// How many numbers the suspends have drawn.
    pub fn suspends(&self) -> u64
        ensures { result ≡ self.now.shape.queue.suspends }
    {
        self.table.suspends()
    }

    /// How many numbers the resumes have drawn.
    pub fn resumes(&self) -> u64
        ensures { result ≡ self.now.shape.queue.resumes }
    {
        self.table.resumes()
    }

    /// The cell of a number; none where neither counter has passed it.
    pub fn cell(&self, number: u64) -> Option<CoreCell>
        ensures value { result ≡ slice_get self.now.shape.queue.cells number }
        ensures sole { IsIdle self.now.shape.queue.doing → NoneTaken self.now.shape
            → TellsWait self.now.shape number result }
    {
        self.table.cell(number)
    }

    /// What a pass is doing; none where there is no such pass.
    pub fn doing(&self, pass: u32) -> Option<Doing>
        ensures { result ≡ slice_get self.now.shape.queue.doing pass }
    {
        self.table.doing(pass)
    }

    /// How many permits a pass holds; none where there is no such pass.
    pub fn held(&self, pass: u32) -> Option<u32>
        ensures { result ≡ slice_get self.now.shape.held pass }
    {
        self.table.held(pass)
    }

    /// Every core is one: its history is legal, and it shows the semaphore after it.
    fn is_core(&self)
        ensures core { IsEitherCore self.now.shape }
        ensures plain { self.now.shape.sync ≡ false → IsCore self.now.shape }
        ensures shows { Shows self.now.shape
            (object_after self.now.shape.permits self.now.shape.history) }
    {
        let _ = &self.table;
    }

    /// The entries that its events have made so far, oldest first.
    pub fn history(&self) -> &[Entry]
        ensures value { result.now ≡ self.now.shape.history }

        // Each entry may come where it stands, and the semaphore after them all is the one
        // that the core shows.
        ensures legal { IsLegal self.now.shape.permits self.now.shape.history }
        ensures object { object_after self.now.shape.permits self.now.shape.history
            ≡ shown_by_either self.now.shape }
        ensures plain { self.now.shape.sync ≡ false
            → object_after self.now.shape.permits self.now.shape.history
            ≡ shown_semaphore self.now.shape }
        ensures shows { Shows self.now.shape
            (object_after self.now.shape.permits self.now.shape.history) }
        ensures balanced { IsBalanced self.now.shape.permits
            (object_after self.now.shape.permits self.now.shape.history) }
    {
        self.table.history()
    }
}
