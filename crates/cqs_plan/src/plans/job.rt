//! A job of a plan, and the list of them.

ghost use Rattle.std.specs.Prelude.{◌≡◌};

use super::name::Name;
use super::step::Steps;
use std::marker::Model;

/// A caller of the resources, with what it does.
#[derive(Drop)]
pub struct Job {
    pub name: Name,
    pub steps: Steps,
    /// The turn from which on a wait that isn't served is given up.
    pub deadline: Option<u32>,
    /// The most turns that each of its waits may last: 1 to 40,000.
    pub within: Option<u32>,
    /// How often, in all, it may begin a wait again that lasted too long: 0 to 64.
    pub retry: u32,
}

/// The jobs of a plan, in the order in which each turn lets them act.
#[derive(Drop)]
pub struct Jobs {
    items: Vec<Job>,
}

impl Model for Jobs {
    ghost use Rattle.std.specs.Prelude.{List};
    ghost use Rattle.cqs_plan.specs.declared.plans.job.Job.{Job};

    ghost Value = { List Job };

    ghost view = { λ jobs. jobs.items.items };
}

impl From<Vec<Job>> for Jobs {
    ghost from_gives = { λ items jobs. jobs ≡ items.items };

    fn from(items: Vec<Job>) -> Self {
        Jobs { items }
    }
}

impl Jobs {
    pub fn as_slice(&self) -> &[Job]
        ensures { result.now ≡ self.now }
    {
        self.items.as_slice()
    }

    pub fn into_vec(self) -> Vec<Job>
        ensures { result.items ≡ self }
    {
        self.items
    }
}
