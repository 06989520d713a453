//! How long the waits of a job may last, and how often it may begin one again.
ghost use Rattle.std.specs.Prelude.{◌≡◌, IfOk, IsTrue, codes, map};
ghost use Rattle.toml.specs.Data.{get_member};
ghost use Rattle.toml.specs.View.{table_view};
ghost use Rattle.cqs_plan_reader.specs.FaultRules.{has_only};
ghost use Rattle.cqs_plan_reader.specs.Faults.{job_keys, patience_faults, retry_faults, within_faults};
ghost use Rattle.cqs_plan_reader.specs.Meaning.{given_number, number_in};
ghost use Rattle.cqs_plan_reader.specs.Reading.{Reads};

use super::members::member;
use super::numbers::number;
use super::place::Place;
use cqs_plan::{FaultKind, PlanError};
use std::alloc::Global;
use toml::Table;

/// The keys that a job of this version may have.
pub fn job_keys(version: u32) -> &'static [&'static str]
    ensures { map (λ key. key.now) result.now ≡ job_keys version }
{
    if version == 2 {
        &["name", "steps", "deadline", "within", "retry"]
    } else {
        &["name", "steps", "deadline"]
    }
}

/// How many turns each wait of a job may last. A job with retries has to say it.
fn within(alloc: Global, job: usize, table: &Table) -> Result<Option<u32>, PlanError>
    ensures faults { Reads result (within_faults job (table_view table.now)) }
    ensures value { let given = get_member (codes "within") (table_view table.now) in
        IfOk result (λ within. within ≡ given_number given) }
{
    let place = Place::Part { job, key: "within" };
    match member(table, "within") {
        Some(turns) => Ok(Some(number(alloc, place, turns, 1, 40_000)?)),
        None if member(table, "retry").is_some() => Err(place.fault(alloc, FaultKind::Missing)),
        None => Ok(None),
    }
}

/// How often, in all, a job may begin a wait again.
fn retry(alloc: Global, job: usize, table: &Table) -> Result<u32, PlanError>
    ensures faults { Reads result (retry_faults job (table_view table.now)) }
    ensures value { let given = get_member (codes "retry") (table_view table.now) in
        IfOk result (λ retry. retry ≡ number_in given) }
{
    match member(table, "retry") {
        Some(retries) => number(alloc, Place::Part { job, key: "retry" }, retries, 1, 64),
        None => Ok(0),
    }
}

/// Both, of a job of this version that has no keys but those that it may have.
pub fn patience(
    alloc: Global,
    version: u32,
    job: usize,
    table: &Table,
) -> Result<(Option<u32>, u32), PlanError>
    requires { IsTrue (has_only (job_keys version) (table_view table.now)) }
    ensures faults { Reads result (patience_faults version job (table_view table.now)) }
    ensures within { let given = get_member (codes "within") (table_view table.now) in
        IfOk result (λ patience. patience.0 ≡ given_number given) }
    ensures retry { let given = get_member (codes "retry") (table_view table.now) in
        IfOk result (λ patience. patience.1 ≡ number_in given) }
{
    if version != 2 {
        return Ok((None, 0));
    }
    let within = within(alloc, job, table)?;
    let retry = retry(alloc, job, table)?;
    Ok((within, retry))
}
