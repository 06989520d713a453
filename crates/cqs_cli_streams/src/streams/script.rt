//! Which calls of a stream in memory fail.

use crate::Failed;
use std::alloc::{AllocError, Global};
use std::marker::Model;

/// Which calls of a stream in memory fail: those whose numbers, from 1, stand in a list.
#[derive(Drop)]
pub struct Script {
    failing: Vec<u32>,
    calls: u64,
    faults: u64,
}

impl Model for Script {
    ghost use Rattle.cqs_cli_streams.specs.Script as spec;

    ghost Value = { spec.Script };

    ghost view = { λ script. record
        { failing = script.failing.items; calls = script.calls; faults = script.faults } };
}

impl Script {
    ghost use Rattle.std.specs.Prelude.{◌≡◌, ◌↔◌, IsTrue, IfOk};
    ghost use Rattle.cqs_cli_streams.specs.Script.{IsFailing, with_call, after_fault};
    ghost use Rattle.cqs_cli_streams.specs.Stream.{Rises};

    /// A script before the first call.
    pub fn new(alloc: Global, failing: &[u32]) -> Result<Script, AllocError>
        ensures { IfOk result (λ script. script
            ≡ record { failing = failing.now; calls = 0; faults = 0 }) }
    {
        Ok(Script {
            failing: Vec::from_slice(alloc, failing)?,
            calls: 0,
            faults: 0,
        })
    }

    /// Whether the next call is one that fails.
    pub fn is_failing(&self) -> bool
        ensures { IsTrue result ↔ IsFailing self.now }
    {
        let number = self.calls.saturating_add(1);
        self.failing.iter().any(|call| u64::from(*call) == number)
    }

    /// Counts a call that went well.
    pub fn pass(&mut self)
        ensures { self.new ≡ with_call self.old }
    {
        self.calls = self.calls.saturating_add(1);
    }

    /// Counts a call that failed.
    pub fn fail(&mut self) -> Failed
        ensures after { self.new ≡ after_fault self.old }
        ensures rises { Rises self.old.faults self.new.faults }
    {
        self.calls = self.calls.saturating_add(1);
        self.faults = self.faults.saturating_add(1);
        Failed
    }
}
