//! The steps of a job.
ghost use Rattle.std.specs.Prelude.{◌≡◌, codes, count_by, Some, IfOk, map};
ghost use Rattle.toml.specs.View.{array_view, view};
ghost use Rattle.cqs_plan_reader.specs.FaultRules.{each};
ghost use Rattle.cqs_plan_reader.specs.Faults.{job_step_faults, step_faults, steps_faults, steps_part_faults};
ghost use Rattle.cqs_plan.specs.Arriving.{has_round, rounds_at, rounds_of};
ghost use Rattle.cqs_plan_reader.specs.Counted.{is_counted};
ghost use Rattle.cqs_plan.specs.Holding.{is_held};
ghost use Rattle.cqs_plan_reader.specs.Meaning.{items_in, items_list, step_in, steps_in};
ghost use Rattle.cqs_plan.specs.Order.{AreFew};
ghost use Rattle.cqs_plan_reader.specs.Places.{part_place, place_text};
ghost use Rattle.cqs_plan_reader.specs.Reading.{Reads, data_in};

use super::place::Place;
use super::step_text::step_of;
use cqs_plan::{FaultKind, Kind, PlanError, Resource, Step};
use std::alloc::Global;
use toml::Value;
use toml::value::Array;

/// Which steps at a resource are counted.
#[derive(Clone, Copy)]
pub enum Counted {
    Takes,
    Gives,
    Arrivals,
}

fn is_counted(counted: Counted, resource: u32, step: Step) -> bool
    ensures { result ≡ is_counted counted resource step }
{
    match counted {
        Counted::Takes => matches!(step, Step::Take(place) if place == resource),
        Counted::Gives => matches!(step, Step::Give(place) if place == resource),
        Counted::Arrivals => matches!(step, Step::Arrive(place) if place == resource),
    }
}

/// How many of the steps count.
fn count(earlier: &[Step], counted: Counted, resource: u32) -> usize
    ensures { result ≡ count_by (is_counted counted resource) earlier.now }
{
    earlier
        .iter()
        .filter(|step| is_counted(counted, resource, **step))
        .count()
}

fn is_held(step: Step, earlier: &[Step]) -> bool
    ensures { result ≡ is_held earlier.now step }
{
    match step {
        Step::Give(resource) => {
            count(earlier, Counted::Gives, resource) < count(earlier, Counted::Takes, resource)
        }
        Step::Take(_) | Step::Down(_) | Step::Await(_) | Step::Arrive(_) | Step::Work(_) => true,
    }
}

/// How many rounds the resource at a place has: only a barrier has any.
fn rounds_at(resources: &[Resource], place: u32) -> u32
    ensures { result ≡ rounds_at resources.now place }
{
    match resources.get(place as usize) {
        Some(resource) => rounds_of(resource.kind),
        None => 0,
    }
}

fn rounds_of(kind: Kind) -> u32
    ensures { result ≡ rounds_of kind }
{
    match kind {
        Kind::Rounds { rounds, .. } => rounds,
        Kind::Semaphore(_) | Kind::Mutex | Kind::Pool(_) | Kind::Latch(_) => 0,
    }
}

/// Whether an arrival has a round of its barrier left.
fn has_round(step: Step, resources: &[Resource], earlier: &[Step]) -> bool
    ensures { result ≡ has_round resources.now earlier.now step }
{
    match step {
        Step::Arrive(place) => {
            count(earlier, Counted::Arrivals, place) < rounds_at(resources, place) as usize
        }
        Step::Take(_) | Step::Give(_) | Step::Down(_) | Step::Await(_) | Step::Work(_) => true,
    }
}

/// A step of a job that has made the earlier ones.
fn step(
    alloc: Global,
    place: Place<'_>,
    value: &Value,
    resources: &[Resource],
    earlier: &[Step],
) -> Result<Step, PlanError>
    requires { AreFew resources.now }
    ensures faults { let place = place_text place.entry in
        Reads result (step_faults place resources.now earlier.now (view value.now)) }
    ensures value { IfOk result (λ step. step_in resources.now (view value.now) ≡ Some step) }
{
    let Some(text) = value.as_str() else {
        return Err(place.fault(alloc, FaultKind::Shape));
    };
    match step_of(text, resources) {
        Ok(step) if !is_held(step, earlier) => Err(place.fault(alloc, FaultKind::Unheld)),
        Ok(step) if !has_round(step, resources, earlier) => {
            Err(place.fault(alloc, FaultKind::Many))
        }
        Ok(step) => Ok(step),
        Err(kind) => Err(place.fault(alloc, kind)),
    }
}

/// The steps that values say, each after those before it.
fn each_step(
    alloc: Global,
    job: usize,
    values: &Array,
    resources: &[Resource],
) -> Result<Vec<Step>, PlanError>
    requires { AreFew resources.now }
    ensures faults { let all = map view values.now.items in
        let place = part_place job (codes "steps") in
        Reads result (each all (job_step_faults place resources.now all)) }
    ensures value { let all = map view values.now.items in
        IfOk result (λ steps. steps.items ≡ steps_in resources.now all) }
{
    let mut steps = Vec::with_capacity(alloc, values.len())?;
    for (index, value) in values.iter().enumerate() {
        let place = Place::Step { job, step: index };
        let read = step(alloc, place, value, resources, steps.as_slice())?;
        steps.push(read)?;
    }
    Ok(steps)
}

/// The steps that an array says.
fn listed_steps(
    alloc: Global,
    job: usize,
    values: &Array,
    resources: &[Resource],
) -> Result<Vec<Step>, PlanError>
    requires { AreFew resources.now }
    ensures faults { let place = part_place job (codes "steps") in
        Reads result (steps_faults place resources.now (items_list (array_view values.now))) }
    ensures value { let all = items_list (array_view values.now) in
        IfOk result (λ steps. steps.items ≡ steps_in resources.now all) }
{
    if values.len() > 64 {
        return Err(Place::Part { job, key: "steps" }.fault(alloc, FaultKind::Many));
    }
    each_step(alloc, job, values, resources)
}

/// The steps of a job, from what it has at `steps`.
pub fn job_steps(
    alloc: Global,
    job: usize,
    value: Option<&Value>,
    resources: &[Resource],
) -> Result<Vec<Step>, PlanError>
    requires { AreFew resources.now }
    ensures faults { Reads result (steps_part_faults job resources.now (data_in value.entry)) }
    ensures value { let all = items_in (data_in value.entry) in
        IfOk result (λ steps. steps.items ≡ steps_in resources.now all) }
{
    let place = Place::Part { job, key: "steps" };
    let Some(value) = value else {
        return Err(place.fault(alloc, FaultKind::Missing));
    };
    match value.as_array() {
        None => Err(place.fault(alloc, FaultKind::Shape)),
        Some(values) => listed_steps(alloc, job, values, resources),
    }
}
