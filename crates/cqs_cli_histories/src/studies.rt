//! The commands on schedules and histories, and what each makes of an input.

ghost use Rattle.std.specs.Prelude.{◌<◌, ◌^◌, IfOk, length};
ghost use Rattle.cqs_cli_histories.specs.Studies.{IsStudied};

use crate::histories::check;
use crate::schedules::{history, replay};
use cqs_core::Memory;
use std::alloc::Global;

/// What an input is read for.
#[derive(Clone, Copy)]
pub enum Study {
    /// A schedule, for what its events answer.
    Replay,
    /// A schedule, for the history of its run.
    History,
    /// A history, for whether it is legal.
    Check,
}

/// What the study of an input came to.
#[derive(Drop)]
pub enum Studied {
    /// This is written for it.
    Text(Vec<u8>),
    /// It breaks the form of what is read, and this line says where.
    BadText(Vec<u8>),
    /// It is a history that isn't legal, and this line says where.
    NotLegal(Vec<u8>),
}

/// Studies an input.
pub fn study_input(alloc: Global, study: Study, bytes: &[u8]) -> Result<Studied, Memory>
    requires { length bytes.now < 2 ^ 32 }
    ensures { IfOk result (λ studied. IsStudied study bytes.now studied) }
{
    match study {
        Study::Replay => replay(alloc, bytes),
        Study::History => history(alloc, bytes),
        Study::Check => check(alloc, bytes),
    }
}
