//! Integers in a range.
ghost use Rattle.std.specs.Prelude.{◌≡◌, IfOk, Some};
ghost use Rattle.toml.specs.View.{view};
ghost use Rattle.cqs_plan_reader.specs.FaultRules.{optional, require};
ghost use Rattle.cqs_plan_reader.specs.Faults.{number_faults};
ghost use Rattle.cqs_plan_reader.specs.Places.{place_text};
ghost use Rattle.cqs_plan_reader.specs.Meaning.{given_number, number_in};
ghost use Rattle.cqs_plan_reader.specs.Reading.{Reads, data_in};

use super::place::Place;
use cqs_plan::{FaultKind, PlanError};
use std::alloc::Global;
use toml::Value;

/// An integer from `least` to `most`.
pub fn number(
    alloc: Global,
    place: Place<'_>,
    value: &Value,
    least: u32,
    most: u32,
) -> Result<u32, PlanError>
    ensures faults { let place = place_text place.entry in
        Reads result (number_faults place least most (view value.now)) }
    ensures value { IfOk result (λ number. number ≡ number_in (Some (view value.now))) }
{
    match value.as_integer() {
        None => Err(place.fault(alloc, FaultKind::Shape)),
        Some(number) if i64::from(least) <= number && number <= i64::from(most) => Ok(
            number as u32,
        ),
        Some(_) => Err(place.fault(alloc, FaultKind::Range)),
    }
}

/// An integer that has to be there.
pub fn required_number(
    alloc: Global,
    place: Place<'_>,
    value: Option<&Value>,
    least: u32,
    most: u32,
) -> Result<u32, PlanError>
    ensures faults { let place = place_text place.entry in
        Reads result (require place (data_in value.entry) (number_faults place least most)) }
    ensures value { IfOk result (λ number. number ≡ number_in (data_in value.entry)) }
{
    match value {
        None => Err(place.fault(alloc, FaultKind::Missing)),
        Some(value) => number(alloc, place, value, least, most),
    }
}

/// An integer that may be absent.
pub fn optional_number(
    alloc: Global,
    place: Place<'_>,
    value: Option<&Value>,
    least: u32,
    most: u32,
) -> Result<Option<u32>, PlanError>
    ensures faults { let place = place_text place.entry in
        Reads result (optional (data_in value.entry) (number_faults place least most)) }
    ensures value { IfOk result (λ number. number ≡ given_number (data_in value.entry)) }
{
    match value {
        None => Ok(None),
        Some(value) => Ok(Some(number(alloc, place, value, least, most)?)),
    }
}
