//! A step of a job, and the list of them.

ghost use Rattle.std.specs.Prelude.{◌≡◌};

use std::marker::Model;

/// One step of a job. The number is the place of a resource among the plan's resources, but in
/// `Work`, where it counts turns.
#[derive(Clone, Copy)]
pub enum Step {
    /// Takes a permit, the lock or an element.
    Take(u32),
    /// Gives back the oldest that the job holds of this resource.
    Give(u32),
    /// Counts a latch down.
    Down(u32),
    /// Waits until a latch is open.
    Await(u32),
    /// Arrives at a barrier.
    Arrive(u32),
    /// Works for this many turns.
    Work(u32),
}

/// The steps of a job, in order.
#[derive(Drop)]
pub struct Steps {
    items: Vec<Step>,
}

impl Model for Steps {
    ghost use Rattle.std.specs.Prelude.{List};
    ghost use Rattle.cqs_plan.specs.declared.plans.step.Step.{Step};

    ghost Value = { List Step };

    ghost view = { λ steps. steps.items.items };
}

impl From<Vec<Step>> for Steps {
    ghost from_gives = { λ items steps. steps ≡ items.items };

    fn from(items: Vec<Step>) -> Self {
        Steps { items }
    }
}

impl Steps {
    pub fn as_slice(&self) -> &[Step]
        ensures { result.now ≡ self.now }
    {
        self.items.as_slice()
    }

    pub fn into_vec(self) -> Vec<Step>
        ensures { result.items ≡ self }
    {
        self.items
    }
}
