//! Lists of events, made one after the other, with their outcomes in order.

ghost use Rattle.std.specs.Prelude.{◌≡◌, false, ◌⊎◌, ◌+◌, ◌^◌, ◌<◌, ◌≤◌, [], ◌∷◌, ◌++◌, Some, Err, length, IfErr, IsErrOf, OnOk, OnErr};
ghost use Rattle.cqs_core.specs.SemaphoreAnswers.{Makes};
ghost use Rattle.cqs_core.specs.SemaphoreEntries.{object_after};
ghost use Rattle.cqs_core.specs.SemaphoreCores.{IsEitherCore};
ghost use Rattle.cqs_core.specs.SemaphoreShown.{IsCore, Shows};
ghost use Rattle.cqs_core.specs.SemaphoreTable.{step};
ghost use Rattle.cqs_core_run.specs.EventRuns.{MakesAll, run_at, run_event};

use crate::runnable::Core;
use cqs_core::{CoreError, Event, Outcome};
use std::alloc::{AllocError, Global};
use std::marker::Model;

/// What events answered, oldest first.
///
/// Contracts see the list, and for how many more outcomes there is room.
#[derive(Drop)]
pub struct Outcomes {
    list: Vec<Outcome>,
}

impl Model for Outcomes {
    ghost use Rattle.std.specs.Prelude.{◌-◌, vec_len, vec_capacity};
    ghost use Rattle.cqs_core_run.specs.EventRuns.{Told};

    ghost Value = { Told };

    ghost view = { λ o. record {
      items = o.list.items;
      spare = vec_capacity o.list - vec_len o.list;
    } };
}

impl Outcomes {
    /// No outcomes yet, and no memory for any.
    pub fn new(alloc: Global) -> Self
        ensures { result.items ≡ [] }
    {
        Outcomes {
            list: Vec::new(alloc),
        }
    }

    /// The outcomes so far, oldest first.
    pub fn as_slice(&self) -> &[Outcome]
        ensures { result.now ≡ self.now.items }
    {
        self.list.as_slice()
    }

    /// Makes room for so many further outcomes.
    pub fn reserve(&mut self, more: u32) -> Result<(), AllocError>
        ensures ok { OnOk result (more ≤ self.new.spare) }
        ensures full { OnErr result (self.old.spare < more) }
        ensures same { self.new.items ≡ self.old.items }
        ensures kept { self.old.spare ≤ self.new.spare }
    {
        self.list.reserve(more as usize)
    }

    /// Adds an outcome, within the room that was reserved.
    fn push(&mut self, outcome: Outcome)
        requires { 1 ≤ self.old.spare }
        ensures items { self.new.items ≡ self.old.items ++ outcome ∷ [] }
        ensures spare { self.old.spare ≡ self.new.spare + 1 }
    {
        self.list.push_reserved(outcome);
    }
}

impl Core {
    /// Makes one event of a list, and adds its outcome.
    ///
    /// Room for the outcome is made first, so that no event is made whose outcome isn't told.
    #[tactic(auto, using(crate::proofs::EventRuns::one_event))]
    fn run_event(&mut self, event: Event, outcomes: &mut Outcomes) -> Result<(), CoreError>
        ensures made { OnOk result
            (run_event (Some (run_at self.old.shape outcomes.old.items)) event
            ≡ Some (run_at self.new.shape outcomes.new.items)) }
        ensures refused { IfErr result
            (λ why. Makes (step self.new.shape event) (Err why) self.new.shape self.new.shape) }
        ensures same { OnErr result (self.new.shape ≡ self.old.shape) }
        ensures told { OnErr result (outcomes.new.items ≡ outcomes.old.items) }
        ensures memory { IsErrOf result CoreError.Memory
            → (self.old.spare < 1) ⊎ (outcomes.old.spare < 1) }
        ensures spare { self.old.spare ≤ self.new.spare + 1 }
        ensures room { outcomes.old.spare ≤ outcomes.new.spare + 1 }
    {
        outcomes.reserve(1)?;
        let outcome = self.step(event)?;
        outcomes.push(outcome);
        Ok(())
    }

    /// Makes the events of a list, one after the other, up to the first that is refused.
    #[tactic(auto, using(crate::proofs::EventRuns::each_event))]
    fn run_each(
        &mut self,
        events: &[Event],
        outcomes: &mut Outcomes,
    ) -> Result<(), (u32, CoreError)>
        requires { length events.now < 2 ^ 32 }
        ensures made { MakesAll events.now result (run_at self.old.shape outcomes.old.items)
            (run_at self.new.shape outcomes.new.items) }
        ensures memory { IfErr result (λ stop. stop.1 ≡ CoreError.Memory
            → (self.old.spare ≤ stop.0) ⊎ (outcomes.old.spare ≤ stop.0)) }
        ensures spare { self.old.spare ≤ self.new.spare + length events.now }
        ensures room { outcomes.old.spare ≤ outcomes.new.spare + length events.now }
    {
        for (place, event) in events.iter().enumerate() {
            if let Err(why) = self.run_event(*event, outcomes) {
                return Err((place as u32, why));
            }
        }
        Ok(())
    }

    /// Makes a list of events, one after the other, and adds an outcome for each.
    ///
    /// It stops at the first event that is refused, and tells its place, from 0, and why: those
    /// before it were made, each with its outcome, and it wasn't. `BadSize` never comes.
    pub fn run_events(
        &mut self,
        events: &[Event],
        outcomes: &mut Outcomes,
    ) -> Result<(), (u32, CoreError)>
        requires { length events.now < 2 ^ 32 }
        ensures made { MakesAll events.now result (run_at self.old.shape outcomes.old.items)
            (run_at self.new.shape outcomes.new.items) }

        // Whatever the events are, and wherever they stop, the history is legal, and the core shows
        // the semaphore after it.
        ensures core { IsEitherCore self.new.shape }
        ensures plain { self.new.shape.sync ≡ false → IsCore self.new.shape }
        ensures shows { Shows self.new.shape
            (object_after self.new.shape.permits self.new.shape.history) }

        // It is out of memory at an event only where the core or the outcomes had no more room than
        // for those before it.
        ensures memory { IfErr result (λ stop. stop.1 ≡ CoreError.Memory
            → (self.old.spare ≤ stop.0) ⊎ (outcomes.old.spare ≤ stop.0)) }
        ensures spare { self.old.spare ≤ self.new.spare + length events.now }
        ensures room { outcomes.old.spare ≤ outcomes.new.spare + length events.now }
    {
        let answer = self.run_each(events, outcomes);
        self.is_core();
        answer
    }
}
