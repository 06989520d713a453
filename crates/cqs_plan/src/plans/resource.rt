//! A resource of a plan, and the list of them.

ghost use Rattle.std.specs.Prelude.{◌≡◌};

use super::kind::Kind;
use super::name::Name;
use std::marker::Model;

/// What jobs share: a name and what stands behind it.
#[derive(Drop)]
pub struct Resource {
    pub name: Name,
    pub kind: Kind,
}

/// The resources of a plan. A step names one by its place here.
#[derive(Drop)]
pub struct Resources {
    items: Vec<Resource>,
}

impl Model for Resources {
    ghost use Rattle.std.specs.Prelude.{List};
    ghost use Rattle.cqs_plan.specs.declared.plans.resource.Resource.{Resource};

    ghost Value = { List Resource };

    ghost view = { λ resources. resources.items.items };
}

impl From<Vec<Resource>> for Resources {
    ghost from_gives = { λ items resources. resources ≡ items.items };

    fn from(items: Vec<Resource>) -> Self {
        Resources { items }
    }
}

impl Resources {
    pub fn as_slice(&self) -> &[Resource]
        ensures { result.now ≡ self.now }
    {
        self.items.as_slice()
    }

    pub fn into_vec(self) -> Vec<Resource>
        ensures { result.items ≡ self }
    {
        self.items
    }
}
