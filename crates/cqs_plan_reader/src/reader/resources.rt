//! The resources of a plan.
ghost use Rattle.std.specs.Prelude.{◌≡◌, ◌≤◌, ◌<◌, ◌+◌, ◌++◌, IfOk, OnOk, IfErr, codes, map, length, nat_le, nat_lt, not};
ghost use Rattle.std.specs.List.{list_any};
ghost use Rattle.std.specs.Str.{bytes_eq};
ghost use Rattle.toml.specs.Data.{get_member};
ghost use Rattle.toml.specs.View.{table_view, view};
ghost use Rattle.cqs_plan.specs.declared.plans.fault_kind.FaultKind.TheVariants as fault;
ghost use Rattle.cqs_plan.specs.declared.plans.kind.Kind.{Kind};
ghost use Rattle.cqs_plan_reader.specs.FaultRules.{each, require, unless};
ghost use Rattle.cqs_plan_reader.specs.Faults.{kind_faults, number_faults, resource_faults, resource_number_faults, resources_faults};
ghost use Rattle.cqs_plan.specs.Language.{barriers, resource_kinds};
ghost use Rattle.cqs_plan_reader.specs.Meaning.{members_in, members_list, number_in, resource_in};
ghost use Rattle.cqs_plan.specs.Order.{AreFew, NamesAscend};
ghost use Rattle.cqs_plan_reader.specs.Places.{below_place};
ghost use Rattle.cqs_plan_reader.specs.Reading.{Reads, StopsAt};
ghost use Rattle.cqs_plan_reader.specs.Sections.{AreRead, kind_of, kinds_before, kinds_up_to, names_of};

use super::members::{has_only, member};
use super::names::is_name;
use super::numbers::required_number;
use super::place::Place;
use super::sections::Section;
use cqs_plan::{FaultKind, Kind, Name, PlanError, Resource};
use std::alloc::Global;
use toml::{Table, Value};

/// A number that the table of a resource has at a key, at least 1.
fn number_at(
    alloc: Global,
    kind: &str,
    name: &str,
    table: &Table,
    key: &str,
    most: u32,
) -> Result<u32, PlanError>
    ensures faults { let place = below_place (below_place kind.now name.now) key.now in
        let given = get_member key.now (table_view table.now) in
        Reads result (require place given (number_faults place 1 most)) }
    ensures value { let given = get_member key.now (table_view table.now) in
        IfOk result (λ number. number ≡ number_in given) }
{
    let place = Place::Number { kind, name, key };
    required_number(alloc, place, member(table, key), 1, most)
}

/// The parties and the rounds in the table of a barrier.
fn rounds(alloc: Global, name: &str, table: &Table) -> Result<Kind, PlanError>
    ensures faults { let members = table_view table.now in
        Reads result (resource_number_faults barriers name.now members) }
    ensures value { let members = table_view table.now in
        let parties = number_in (get_member (codes "parties") members) in
        let rounds = number_in (get_member (codes "rounds") members) in
        IfOk result (λ kind. kind ≡ Kind.Rounds parties rounds) }
{
    let parties = number_at(alloc, "barrier", name, table, "parties", 32)?;
    let rounds = number_at(alloc, "barrier", name, table, "rounds", 64)?;
    Ok(Kind::Rounds { parties, rounds })
}

/// What a resource is, by the numbers in its table.
fn kind_in(alloc: Global, section: Section, name: &str, table: &Table) -> Result<Kind, PlanError>
    ensures faults { let members = table_view table.now in
        Reads result (resource_number_faults (kind_of section) name.now members) }
    ensures value { let members = table_view table.now in
        let kind = kind_of section in
        let said = map (λ number. number_in (get_member number.key members)) kind.numbers in
        IfOk result (λ found. found ≡ kind.kind said) }
{
    match section {
        Section::Semaphore => {
            Ok(Kind::Semaphore(number_at(alloc, "semaphore", name, table, "size", 1_048_576)?))
        }
        Section::Mutex => Ok(Kind::Mutex),
        Section::Pool => Ok(Kind::Pool(number_at(alloc, "pool", name, table, "size", 4_096)?)),
        Section::Latch => {
            Ok(Kind::Latch(number_at(alloc, "latch", name, table, "count", 1_048_576)?))
        }
        Section::Barrier => rounds(alloc, name, table),
    }
}

fn is_same(one: &[u8], other: &[u8]) -> bool
    ensures { result ≡ bytes_eq one.now other.now }
{
    one == other
}

/// Whether one of the resources has the name.
fn is_taken(name: &str, resources: &[Resource]) -> bool
    ensures { result ≡ list_any (λ resource. bytes_eq name.now resource.name) resources.now }
{
    let bytes = name.as_bytes();
    resources
        .iter()
        .any(|resource| is_same(bytes, resource.name.as_slice()))
}

/// Whether 64 resources stand already: the earlier ones, and so many of the section.
fn is_full(earlier: &[Resource], index: usize) -> bool
    requires earlier { AreFew earlier.now }
    requires index { index ≤ 64 }
    ensures { result ≡ nat_le 64 (length earlier.now + index) }
{
    earlier.len() + index >= 64
}

/// A resource of this name, with the numbers in its table.
fn numbered(
    alloc: Global,
    section: Section,
    name: &str,
    table: &Table,
) -> Result<Resource, PlanError>
    ensures faults { let members = table_view table.now in
        Reads result (resource_number_faults (kind_of section) name.now members) }
    ensures name { IfOk result (λ resource. resource.name ≡ name.now) }
    ensures kind { let members = table_view table.now in
        let kind = kind_of section in
        let said = map (λ number. number_in (get_member number.key members)) kind.numbers in
        IfOk result (λ resource. resource.kind ≡ kind.kind said) }
{
    let kind = kind_in(alloc, section, name, table)?;
    Ok(Resource {
        name: Name::from(name.as_bytes().to_vec(alloc)?),
        kind,
    })
}

/// A resource, from its name and its table, which is the `index`-th of the section: its name is
/// new, and it isn't one too many.
fn tabled(
    alloc: Global,
    section: Section,
    earlier: &[Resource],
    index: usize,
    name: &str,
    table: &Table,
) -> Result<Resource, PlanError>
    requires earlier { AreFew earlier.now }
    requires index { index ≤ 64 }
    ensures faults { let stand = names_of earlier.now in
        let kind = kind_of section in
        let place = below_place kind.key name.now in
        Reads result (unless (not (list_any (bytes_eq name.now) stand)) place fault.Name
        ++ unless (nat_lt (length stand + index) 64) place fault.Many
        ++ resource_number_faults kind name.now (table_view table.now)) }
    ensures name { IfOk result (λ resource. resource.name ≡ name.now) }
    ensures kind { let members = table_view table.now in
        let kind = kind_of section in
        let said = map (λ number. number_in (get_member number.key members)) kind.numbers in
        IfOk result (λ resource. resource.kind ≡ kind.kind said) }
    ensures few { OnOk result (length earlier.now + index < 64) }
{
    let place = Place::Resource {
        kind: section.key(),
        name,
    };
    if is_taken(name, earlier) {
        return Err(place.fault(alloc, FaultKind::Name));
    }
    if is_full(earlier, index) {
        return Err(place.fault(alloc, FaultKind::Many));
    }
    numbered(alloc, section, name, table)
}

/// A resource, from its name and its value, which is the `index`-th of the section. The earlier
/// ones are those of the sections before.
fn resource(
    alloc: Global,
    section: Section,
    earlier: &[Resource],
    index: usize,
    name: &str,
    value: &Value,
) -> Result<Resource, PlanError>
    requires earlier { AreFew earlier.now }
    requires index { index ≤ 64 }
    ensures faults { let stand = names_of earlier.now in
        Reads result (resource_faults (kind_of section) stand index (name.now, view value.now)) }
    ensures value { let said = resource_in (kind_of section) (name.now, view value.now) in
        IfOk result (λ resource. resource ≡ said) }
    ensures few { OnOk result (length earlier.now + index < 64) }
{
    let kind = section.key();
    if !is_name(name) {
        return Err(Place::Word(kind).fault(alloc, FaultKind::Name));
    }
    let place = Place::Resource { kind, name };
    let Some(table) = value.as_table() else {
        return Err(place.fault(alloc, FaultKind::Shape));
    };
    if !has_only(section.keys(), table) {
        return Err(place.fault(alloc, FaultKind::Key));
    }
    tabled(alloc, section, earlier, index, name, table)
}

/// The resources that the table of a section says.
fn listed(
    alloc: Global,
    section: Section,
    earlier: &[Resource],
    table: &Table,
) -> Result<Vec<Resource>, PlanError>
    requires earlier { AreFew earlier.now }
    ensures faults { let members = members_list (table_view table.now) in
        let stand = names_of earlier.now in
        Reads result (each members (resource_faults (kind_of section) stand)) }
    ensures value { let members = members_list (table_view table.now) in
        IfOk result (λ found. found.items ≡ map (resource_in (kind_of section)) members) }
    ensures order { IfOk result (λ found. NamesAscend found.items) }
{
    let mut found = Vec::with_capacity(alloc, table.len().min(64))?;
    for (name, value) in table {
        let resource = resource(alloc, section, earlier, found.len(), name.as_str(), value)?;
        found.push(resource)?;
    }
    Ok(found)
}

/// The resources of a section, if the root has it.
fn in_section(
    alloc: Global,
    section: Section,
    earlier: &[Resource],
    root: &Table,
) -> Result<Vec<Resource>, PlanError>
    requires earlier { AreFew earlier.now }
    ensures faults { let stand = names_of earlier.now in
        Reads result (kind_faults (kind_of section) stand (table_view root.now)) }
    ensures value { let kind = kind_of section in
        let members = members_in (get_member kind.key (table_view root.now)) in
        IfOk result (λ found. found.items ≡ map (resource_in kind) members) }
    ensures order { IfOk result (λ found. NamesAscend found.items) }
{
    let Some(value) = member(root, section.key()) else {
        return Ok(Vec::new(alloc));
    };
    match value.as_table() {
        None => Err(Place::Word(section.key()).fault(alloc, FaultKind::Shape)),
        Some(table) => listed(alloc, section, earlier, table),
    }
}

/// The resources of a section join those of the sections before.
fn read_section(
    alloc: Global,
    section: Section,
    root: &Table,
    found: &mut Vec<Resource>,
) -> Result<(), PlanError>
    requires { AreRead (kinds_before section) (table_view root.now) found.old.items }
    ensures ok { OnOk result (AreRead (kinds_up_to section) (table_view root.now) found.new.items) }
    ensures err { IfErr result (StopsAt (resources_faults (table_view root.now))) }
{
    let more = in_section(alloc, section, found.as_slice(), root)?;
    found.extend(more)?;
    Ok(())
}

/// The resources of a plan, in order.
pub fn resources(alloc: Global, root: &Table) -> Result<Vec<Resource>, PlanError>
    ensures read { let members = table_view root.now in
        IfOk result (λ found. AreRead resource_kinds members found.items) }
    ensures fault { IfErr result (StopsAt (resources_faults (table_view root.now))) }
{
    let mut found = Vec::new(alloc);
    read_section(alloc, Section::Semaphore, root, &mut found)?;
    read_section(alloc, Section::Mutex, root, &mut found)?;
    read_section(alloc, Section::Pool, root, &mut found)?;
    read_section(alloc, Section::Latch, root, &mut found)?;
    read_section(alloc, Section::Barrier, root, &mut found)?;
    Ok(found)
}
