//! The jobs of a plan.
ghost use Rattle.std.specs.Prelude.{◌≡◌, IfOk, codes, map};
ghost use Rattle.std.specs.BTreeSet.{contains_text};
ghost use Rattle.toml.specs.Data.{get_member};
ghost use Rattle.toml.specs.View.{array_view, table_view, view};
ghost use Rattle.cqs_plan_reader.specs.FaultRules.{each};
ghost use Rattle.cqs_plan_reader.specs.Faults.{arriving_jobs_faults, job_faults, jobs_faults, jobs_part_faults, listed_job_faults};
ghost use Rattle.cqs_plan_reader.specs.Meaning.{items_in, items_list, job_in};
ghost use Rattle.cqs_plan.specs.Order.{AreFew};
ghost use Rattle.cqs_plan_reader.specs.Reading.{AddsName, Reads};

use super::barriers::barriers;
use super::members::{has_only, member};
use super::names::new_name;
use super::numbers::optional_number;
use super::patience::{job_keys, patience};
use super::place::Place;
use super::steps::job_steps;
use cqs_plan::{FaultKind, Job, PlanError, Resource, Steps};
use std::alloc::Global;
use std::collections::BTreeSet;
use toml::value::Array;
use toml::{Table, Value};

/// The `index`-th job, whose name is then added to those that stand.
fn job(
    alloc: Global,
    version: u32,
    index: usize,
    value: &Value,
    resources: &[Resource],
    names: &mut BTreeSet<String>,
) -> Result<Job, PlanError>
    requires { AreFew resources.now }
    ensures faults { let stands = contains_text names.old in
        Reads result (job_faults version resources.now stands index (view value.now)) }
    ensures value { IfOk result (λ job. job ≡ job_in resources.now (view value.now)) }
    ensures added { IfOk result (λ job. AddsName names.old names.new job.name) }
{
    let place = Place::Job(index);
    let Some(table) = value.as_table() else {
        return Err(place.fault(alloc, FaultKind::Shape));
    };
    if !has_only(job_keys(version), table) {
        return Err(place.fault(alloc, FaultKind::Key));
    }
    let name_place = Place::Part {
        job: index,
        key: "name",
    };
    let name = new_name(alloc, name_place, member(table, "name"), names)?;
    let deadline_place = Place::Part {
        job: index,
        key: "deadline",
    };
    let deadline = optional_number(alloc, deadline_place, member(table, "deadline"), 0, 40_000)?;
    let (within, retry) = patience(alloc, version, index, table)?;
    let steps = job_steps(alloc, index, member(table, "steps"), resources)?;
    Ok(Job {
        name,
        steps: Steps::from(steps),
        deadline,
        within,
        retry,
    })
}

/// The jobs that values say, each after those before it.
fn each_job(
    alloc: Global,
    version: u32,
    values: &Array,
    resources: &[Resource],
) -> Result<Vec<Job>, PlanError>
    requires { AreFew resources.now }
    ensures faults { let all = map view values.now.items in
        Reads result (each all (listed_job_faults version resources.now all)) }
    ensures value { let all = map view values.now.items in
        IfOk result (λ jobs. jobs.items ≡ map (job_in resources.now) all) }
{
    let mut names = BTreeSet::new(alloc);
    let mut jobs = Vec::with_capacity(alloc, values.len())?;
    for (index, value) in values.iter().enumerate() {
        let read = job(alloc, version, index, value, resources, &mut names)?;
        jobs.push(read)?;
    }
    Ok(jobs)
}

/// The jobs that an array says.
fn listed_jobs(
    alloc: Global,
    version: u32,
    values: &Array,
    resources: &[Resource],
) -> Result<Vec<Job>, PlanError>
    requires { AreFew resources.now }
    ensures faults { let all = items_list (array_view values.now) in
        Reads result (jobs_faults version resources.now all) }
    ensures value { let all = items_list (array_view values.now) in
        IfOk result (λ jobs. jobs.items ≡ map (job_in resources.now) all) }
{
    if values.len() > 4096 {
        return Err(Place::Word("job").fault(alloc, FaultKind::Many));
    }
    each_job(alloc, version, values, resources)
}

/// The jobs that the root has, in order.
fn all_jobs(
    alloc: Global,
    version: u32,
    root: &Table,
    resources: &[Resource],
) -> Result<Vec<Job>, PlanError>
    requires { AreFew resources.now }
    ensures faults { let given = get_member (codes "job") (table_view root.now) in
        Reads result (jobs_part_faults version resources.now given) }
    ensures value { let all = items_in (get_member (codes "job") (table_view root.now)) in
        IfOk result (λ jobs. jobs.items ≡ map (job_in resources.now) all) }
{
    let Some(value) = member(root, "job") else {
        return Ok(Vec::new(alloc));
    };
    match value.as_array() {
        None => Err(Place::Word("job").fault(alloc, FaultKind::Shape)),
        Some(values) => listed_jobs(alloc, version, values, resources),
    }
}

/// The jobs of a plan of this version, in order. No more of them arrive at a barrier than it has
/// parties.
pub fn jobs(
    alloc: Global,
    version: u32,
    root: &Table,
    resources: &[Resource],
) -> Result<Vec<Job>, PlanError>
    requires { AreFew resources.now }
    ensures faults { let given = get_member (codes "job") (table_view root.now) in
        Reads result (arriving_jobs_faults version resources.now given) }
    ensures value { let all = items_in (get_member (codes "job") (table_view root.now)) in
        IfOk result (λ jobs. jobs.items ≡ map (job_in resources.now) all) }
{
    let jobs = all_jobs(alloc, version, root, resources)?;
    barriers(alloc, resources, jobs.as_slice())?;
    Ok(jobs)
}
