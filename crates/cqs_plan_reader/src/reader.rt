//! Reading a plan from the bytes of a TOML document.
//!
//! The document is parsed whole, and then read key by key, in the order in which faults are looked
//! for. So the first fault that is met is the one that the error names.
ghost use Rattle.std.specs.Prelude.{◌≡◌, ℕ, All, List, IfOk};
ghost use Rattle.cqs_plan.specs.declared.plans.fault_kind.FaultKind.{FaultKind};
ghost use Rattle.toml.specs.View.{table_view};
ghost use Rattle.cqs_plan_reader.specs.Faults.{faults_in};
ghost use Rattle.cqs_plan_reader.specs.Meaning.{plan_in};
ghost use Rattle.cqs_plan.specs.declared.plans.plan.Plan.{Plan};
ghost use Rattle.cqs_plan_reader.specs.PlanText.{IsFirstFault, IsNoToml, IsOrMemory, IsPlanText};
ghost use Rattle.cqs_plan.specs.Runnable.{AreSized, IsRunnable};
ghost use Rattle.cqs_plan_reader.specs.Reading.{Reads};
ghost use Rattle.cqs_plan_reader.specs.Retries.{RetriesWithin};
ghost use Rattle.cqs_plan_reader.specs.Sections.{AreFound};
ghost use Rattle.cqs_plan.specs.Validity.{IsValid};

pub mod barriers;
pub mod jobs;
pub mod members;
pub mod names;
pub mod numbers;
pub mod patience;
pub mod place;
pub mod places;
pub mod resources;
pub mod sections;
pub mod step_text;
pub mod steps;

use cqs_plan::{FaultKind, Jobs, Plan, PlanError, Resources};
use members::{has_only, member};
use numbers::required_number;
use place::Place;
use std::alloc::Global;
use toml::Table;

/// The plan that the root of a document says.
fn plan_from(alloc: Global, root: &Table) -> Result<Plan, PlanError>
    ensures faults { Reads result (faults_in (table_view root.now)) }
    ensures value { IfOk result (λ plan. plan ≡ plan_in (table_view root.now)) }
    ensures found { IfOk result (λ plan. AreFound plan.resources) }
{
    if !has_only(
        &[
            "version",
            "turns",
            "semaphore",
            "mutex",
            "pool",
            "latch",
            "barrier",
            "job",
        ],
        root,
    ) {
        return Err(Place::Word("plan").fault(alloc, FaultKind::Key));
    }
    let version = required_number(alloc, Place::Word("version"), member(root, "version"), 1, 2)?;
    let turns = required_number(
        alloc,
        Place::Word("turns"),
        member(root, "turns"),
        1,
        40_000,
    )?;
    let resources = resources::resources(alloc, root)?;
    let jobs = jobs::jobs(alloc, version, root, resources.as_slice())?;
    Ok(Plan {
        version,
        turns,
        resources: Resources::from(resources),
        jobs: Jobs::from(jobs),
    })
}

fn read(alloc: Global, bytes: &[u8]) -> Result<Plan, PlanError>
    ensures plan { IfOk result (IsPlanText bytes.now) }
    ensures found { IfOk result (λ plan. AreFound plan.resources) }
    ensures not_toml { result ≡ Err PlanError.NotToml → IsNoToml bytes.now }
    ensures fault { (place : List ℕ) (kind : FaultKind)
        → result ≡ Err (PlanError.Fault place kind) → IsFirstFault bytes.now place kind }
{
    match toml::table_from_slice(alloc, bytes) {
        Ok(root) => plan_from(alloc, &root),
        Err(error) if error.is_memory() => Err(PlanError::Memory),
        Err(_) => Err(PlanError::NotToml),
    }
}

/// Reads a plan. An error says why the bytes are none: they are no document, or what the first
/// fault of the document is and where. Only that memory ran out says nothing of them.
pub fn read_plan(alloc: Global, bytes: &[u8]) -> Result<Plan, PlanError>
    ensures plan { IfOk result (IsPlanText bytes.now) }
    ensures valid { IfOk result IsValid }
    ensures runnable { IfOk result IsRunnable }
    ensures sized { IfOk result (λ plan. AreSized plan.resources) }
    ensures retries { IfOk result (λ plan. All RetriesWithin plan.jobs) }
    ensures not_toml { result ≡ Err PlanError.NotToml → IsNoToml bytes.now }
    ensures fault { (place : List ℕ) (kind : FaultKind)
        → result ≡ Err (PlanError.Fault place kind) → IsFirstFault bytes.now place kind }

    // Each answer comes where its cause is there, unless memory runs out.
    ensures of_plan { (plan : Plan) → IsPlanText bytes.now plan → IsOrMemory result (Ok plan) }
    ensures of_no_toml { IsNoToml bytes.now → IsOrMemory result (Err PlanError.NotToml) }
    ensures of_fault { (place : List ℕ) (kind : FaultKind)
        → IsFirstFault bytes.now place kind → IsOrMemory result (Err (PlanError.Fault place kind)) }
{
    read(alloc, bytes)
}
