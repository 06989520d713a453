//! The elements of a pool that jobs hold.

ghost use Rattle.std.specs.Prelude.{◌≡◌, ◌+◌, ◌<◌, ◌≤◌, ◌++◌, Some, length, slice_get, vec_capacity};
ghost use Rattle.cqs_core.specs.Keyed.{without};
ghost use Rattle.cqs_pool.specs.Elements.{number_of};
ghost use Rattle.cqs_floor_common.specs.HeldElements.{elements_held};

use cqs_pool::Element;

/// An element that a job holds.
#[derive(Drop)]
pub struct HeldElement {
    pub job: u32,
    pub element: Element,
}

/// Takes out the oldest element that a job holds.
pub fn take_out(held: &mut Vec<HeldElement>, job: u32) -> Element
    requires { 0 < length (elements_held job held.old.items) }
    ensures first { slice_get (elements_held job held.old.items) 0 ≡ Some (number_of result) }
    ensures rest { held.new.items ≡ without (λ h. h.job) job held.old.items }
    ensures capacity { vec_capacity held.new ≡ vec_capacity held.old }
{
    let Some(at) = held.iter().position(|h| h.job == job) else {
        unreachable!()
    };
    held.remove(at).element
}

/// The jobs hold these as well, behind what they held.
pub fn take_over(held: &mut Vec<HeldElement>, given: Vec<HeldElement>)
    requires { length held.old.items + length given.items ≤ vec_capacity held.old }
    ensures items { held.new.items ≡ held.old.items ++ given.items }
    ensures capacity { vec_capacity held.new ≡ vec_capacity held.old }
{
    for one in given {
        held.push_reserved(one);
    }
}
