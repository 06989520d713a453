//! The numbers that were broken and whose callers haven't come to them.

ghost use Rattle.std.specs.Prelude.{◌≡◌, ◌+◌, ◌<◌, OnOk, ◌^◌, IsTrue, IsSome, Some, None, is_some};
ghost use mathlib.Core.Logic.{◌↔◌};

use std::alloc::{AllocError, Global};
use std::collections::BTreeMap;

/// Each broken number, with its caller where the number was drawn.
#[derive(Drop)]
pub struct Broken {
    callers: BTreeMap<u64, Option<u32>>,
    /// How many of them nobody has drawn.
    early: u32,
}

impl Broken {
    ghost use Rattle.std.specs.Prelude.{[], ℕ, List};
    ghost use Rattle.cqs_check.specs.BrokenNumbers.{AreBroken, Sets, early_in, owner_in};

    pub fn new(alloc: Global) -> Self
        ensures { (next : ℕ) → AreBroken result next [] }
    {
        Broken {
            callers: BTreeMap::new(alloc),
            early: 0,
        }
    }

    /// Whether this number was broken.
    pub fn has(&self, number: u64) -> bool
        ensures { result ≡ is_some (owner_in self.now number) }
    {
        self.callers.contains_key(&number)
    }

    /// Whether this number was broken, and is this caller's.
    pub fn is_of(&self, number: u64, caller: u32) -> bool
        ensures { IsTrue result ↔ (owner_in self.now number ≡ Some (Some caller)) }
    {
        match self.callers.get(&number).copied() {
            Some(Some(found)) => found == caller,
            _ => false,
        }
    }

    pub fn early(&self) -> u32
        ensures { result ≡ early_in self.now }
    {
        self.early
    }

    /// This number is broken, under which a caller waited.
    pub fn add_drawn(&mut self, number: u64, caller: u32) -> Result<(), AllocError>
        ensures set { OnOk result (Sets self.old number (Some (Some caller)) self.new) }
        ensures early { OnOk result (early_in self.new ≡ early_in self.old) }
    {
        self.callers.insert(number, Some(caller))?;
        Ok(())
    }

    /// This number is broken, which nobody has drawn.
    pub fn add_early(&mut self, number: u64) -> Result<(), AllocError>
        requires few { early_in self.old + 1 < 2 ^ 32 }
        ensures set { OnOk result (Sets self.old number (Some None) self.new) }
        ensures early { OnOk result (early_in self.new ≡ early_in self.old + 1) }
    {
        self.callers.insert(number, None)?;
        self.early += 1;
        Ok(())
    }

    /// A caller draws this number, which was broken before.
    pub fn draw(&mut self, number: u64, caller: u32)
        requires there { IsSome (owner_in self.old number) }
        requires early { 0 < early_in self.old }
        ensures set { Sets self.old number (Some (Some caller)) self.new }
        ensures early { early_in self.new + 1 ≡ early_in self.old }
    {
        match self.callers.insert(number, Some(caller)) {
            Ok(_) => {}
            Err(_) => unreachable!(),
        }
        self.early -= 1;
    }

    /// The caller of this number has come to it.
    pub fn remove(&mut self, number: u64)
        ensures set { Sets self.old number None self.new }
        ensures early { early_in self.new ≡ early_in self.old }
    {
        self.callers.remove(&number);
    }
}
