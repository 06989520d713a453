//! Names.
ghost use Rattle.std.specs.Prelude.{◌≡◌, IfErr, IfOk};
ghost use Rattle.std.specs.BTreeSet.{contains_text};
ghost use Rattle.std.specs.List.{list_all};
ghost use Rattle.cqs_plan_reader.specs.FaultRules.{require};
ghost use Rattle.cqs_plan_reader.specs.Faults.{name_faults};
ghost use Rattle.cqs_plan_reader.specs.Places.{place_text};
ghost use Rattle.cqs_plan.specs.Language.{is_name, is_name_byte};
ghost use Rattle.cqs_plan_reader.specs.Meaning.{text_in};
ghost use Rattle.cqs_plan_reader.specs.Reading.{AddsName, Reads, data_in};

use super::place::Place;
use cqs_plan::{FaultKind, Name, PlanError};
use std::alloc::Global;
use std::collections::BTreeSet;
use toml::Value;

fn is_name_byte(byte: u8) -> bool
    ensures { result ≡ is_name_byte byte }
{
    byte.is_ascii_alphanumeric() || byte == b'_' || byte == b'-'
}

fn has_name_bytes(text: &[u8]) -> bool
    ensures { result ≡ list_all is_name_byte text.now }
{
    text.iter().all(|byte| is_name_byte(*byte))
}

/// Whether a text may be the name of a resource or of a job.
pub fn is_name(text: &str) -> bool
    ensures { result ≡ is_name text.now }
{
    1 <= text.len() && text.len() <= 32 && has_name_bytes(text.as_bytes())
}

/// Adds a name to those that stand already.
fn add_name(alloc: Global, text: &str, names: &mut BTreeSet<String>) -> Result<Name, PlanError>
    ensures value { IfOk result (λ name. name ≡ text.now) }
    ensures added { IfOk result (AddsName names.old names.new) }
    ensures memory { IfErr result (λ error. error ≡ PlanError.Memory) }
{
    names.insert(String::from_str(alloc, text)?)?;
    Ok(Name::from(text.as_bytes().to_vec(alloc)?))
}

/// A name that doesn't stand already, which is then added to those that do.
pub fn new_name(
    alloc: Global,
    place: Place<'_>,
    value: Option<&Value>,
    names: &mut BTreeSet<String>,
) -> Result<Name, PlanError>
    ensures faults { let place = place_text place.entry in
        let stands = contains_text names.old in
        Reads result (require place (data_in value.entry) (name_faults place stands)) }
    ensures value { IfOk result (λ name. name ≡ text_in (data_in value.entry)) }
    ensures added { IfOk result (AddsName names.old names.new) }
{
    let Some(value) = value else {
        return Err(place.fault(alloc, FaultKind::Missing));
    };
    let Some(text) = value.as_str() else {
        return Err(place.fault(alloc, FaultKind::Shape));
    };
    if !is_name(text) || names.contains(text) {
        return Err(place.fault(alloc, FaultKind::Name));
    }
    add_name(alloc, text, names)
}
