//! Where a resource stands.
ghost use Rattle.std.specs.Prelude.{◌≡◌, ◌&&◌};
ghost use Rattle.std.specs.Str.{bytes_eq};
ghost use Rattle.std.specs.List.{position_from};
ghost use Rattle.cqs_plan.specs.Language.{can_hold};
ghost use Rattle.cqs_plan_reader.specs.Needs.{suits};
ghost use Rattle.cqs_plan.specs.Order.{AreFew};

use cqs_plan::{Kind, Resource};

/// What a verb needs its resource to be.
#[derive(Clone, Copy)]
pub enum Need {
    /// What can be taken and given.
    Hold,
    Latch,
    Barrier,
}

fn can_hold(kind: Kind) -> bool
    ensures { result ≡ can_hold kind }
{
    match kind {
        Kind::Semaphore(_) | Kind::Mutex | Kind::Pool(_) => true,
        Kind::Latch(_) | Kind::Rounds { .. } => false,
    }
}

fn suits(need: Need, kind: Kind) -> bool
    ensures { result ≡ suits need kind }
{
    match need {
        Need::Hold => can_hold(kind),
        Need::Latch => matches!(kind, Kind::Latch(_)),
        Need::Barrier => matches!(kind, Kind::Rounds { .. }),
    }
}

fn is_named(resource: &Resource, name: &[u8]) -> bool
    ensures { result ≡ bytes_eq resource.now.name name.now }
{
    resource.name.as_slice() == name
}

fn suits_named(resource: &Resource, name: &[u8], need: Need) -> bool
    ensures { result ≡ (bytes_eq resource.now.name name.now && suits need resource.now.kind) }
{
    is_named(resource, name) && suits(need, resource.kind)
}

/// The place of the resource of this name, if it is what is needed.
pub fn place_of(name: &str, need: Need, resources: &[Resource]) -> Option<u32>
    requires { AreFew resources.now }
    ensures { result ≡ position_from
        (λ resource. bytes_eq resource.name name.now && suits need resource.kind) 0 resources.now }
{
    let bytes = name.as_bytes();
    resources
        .iter()
        .position(|resource| suits_named(resource, bytes, need))
        .map(|place| place as u32)
}
