//! Why bytes could not be read as a plan.

ghost use Rattle.std.specs.Prelude.{◌≡◌};
ghost use Rattle.cqs_plan.specs.declared.plans.error.PlanError.TheVariants.{Memory};

use super::fault_kind::FaultKind;
use super::name::Name;
use std::alloc::{AllocError, AllocFailed};

/// Why bytes weren't read as a plan.
#[derive(Drop)]
pub enum PlanError {
    /// Memory ran out.
    Memory,
    /// The bytes are no TOML document.
    NotToml,
    /// The bytes are a TOML document and no plan. This is its first fault.
    Fault { place: Name, kind: FaultKind },
}

impl From<AllocError> for PlanError {
    ghost from_gives = { λ _ error. error ≡ Memory };

    fn from(_: AllocError) -> Self {
        PlanError::Memory
    }
}

impl<T: Drop> From<AllocFailed<T>> for PlanError {
    ghost from_gives = { λ _ error. error ≡ Memory };

    fn from(_: AllocFailed<T>) -> Self {
        PlanError::Memory
    }
}
