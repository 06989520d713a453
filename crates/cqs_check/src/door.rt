//! The callers at the door: each may stand there more than once.

ghost use Rattle.std.specs.Prelude.{◌≡◌, ◌+◌, ◌<◌, OnOk, OnErr, ◌^◌};

use std::alloc::{AllocError, Global};
use std::collections::BTreeMap;

/// How often each caller stands at the door.
#[derive(Drop)]
pub struct Door {
    callers: BTreeMap<u32, u32>,
    total: u32,
}

impl Door {
    ghost use Rattle.std.specs.Prelude.{[], ℕ, List};
    ghost use Rattle.cqs_core.specs.Keyed.{insert_by, without};
    ghost use Rattle.cqs_check.specs.Doors.{many_of, total_of, IsDoor, HasDoor, Comes, Goes};

    pub fn new(alloc: Global) -> Self
        ensures { IsDoor result [] }
    {
        Door {
            callers: BTreeMap::new(alloc),
            total: 0,
        }
    }

    pub fn many(&self, caller: u32) -> u32
        ensures { result ≡ many_of self.now caller }
    {
        self.callers.get(&caller).copied().unwrap_or(0)
    }

    pub fn total(&self) -> u32
        ensures { result ≡ total_of self.now }
    {
        self.total
    }

    /// The caller comes to the door.
    pub fn come(&mut self, caller: u32) -> Result<(), AllocError>
        requires sound { HasDoor self.old }
        requires few { total_of self.old + 1 < 2 ^ 32 }
        ensures ok { OnOk result (Comes self.old caller self.new) }
    {
        let many = self.many(caller);
        self.callers.insert(caller, many + 1)?;
        self.total += 1;
        Ok(())
    }

    /// A caller that stands at the door leaves it.
    pub fn go(&mut self, caller: u32)
        requires sound { HasDoor self.old }
        requires there { 0 < many_of self.old caller }
        ensures { Goes self.old caller self.new }
    {
        let many = self.many(caller);
        match self.callers.insert(caller, many - 1) {
            Ok(_) => {}
            Err(_) => unreachable!(),
        }
        self.total -= 1;
    }
}
