//! A latch of the running queue with its one pass, as a resource of a floor.

ghost use Rattle.std.specs.Prelude.{◌≡◌, ◌<◌, ◌≤◌, IfOk, true};
ghost use Rattle.cqs_latch.specs.Calls.{IsMine};
ghost use Rattle.cqs_latch.specs.LatchMade.{mode_of};
ghost use Rattle.cqs_latch.specs.Owed.{HasOwed};
ghost use Rattle.cqs_plan.specs.declared.plans.kind.Kind.TheVariants as kind;
ghost use Rattle.cqs_rule.specs.Passes.{ample_of, client_of, pass_view};
ghost use Rattle.cqs_rule_laws.specs.declared.config.CancelMode.TheVariants.{Smart};
ghost use Rattle.cqs_floor_alone_kinds.specs.LatchEnds.{ServesAll};

use crate::sole_resource::{Left, Looked};
use cqs_core::Memory;
use cqs_latch::{Down, Latch, LatchLeft, LatchPass, LatchPolled, LatchWait, Owed};
use cqs_plan::{FloorDown, FloorEnd, Kind};
use cqs_rule::{CancelMode, Config, MakeError, Place};
use std::alloc::Global;

/// A latch, its one pass, how often it is still to be counted down, and how many waits stand in its
/// line.
#[derive(Drop)]
pub struct LatchSole {
    pub latch: Latch,
    pub pass: LatchPass,
    pub count: u32,
    pub line: u32,
    // Its table has slots for all segments that can be wanted, so none of its calls is crowded.
    pub ghost ample_is: { ample_of latch.queue ≡ true },
}

impl LatchSole {
    ghost use Rattle.cqs_floor_alone_kinds.specs.Stores.{IsOpened};
    ghost use Rattle.cqs_floor_alone_kinds.specs.SoleLatch.{store_latch};

    /// A latch that is to be counted down so often, and room for so many waits.
    pub fn open(alloc: Global, count: u32, waits: u32) -> Result<Self, Memory>
        requires some { 0 < count }
        requires few { count ≤ 1048576 }
        requires few_waits { waits ≤ 524288 }
        ensures { IfOk result (IsOpened store_latch (kind.Latch count) waits) }
    {
        let config = Config {
            passes: 1,
            limit: u64::from(waits) + 1,
            slots: waits / 32 + 8,
        };
        let (latch, pass) = match Latch::ample(alloc, count, CancelMode::Smart, config) {
            Ok(made) => made,
            Err(MakeError::Memory) => return Err(Memory),
            Err(MakeError::BadConfig) => unreachable!(),
        };
        Ok(LatchSole {
            latch,
            pass,
            count,
            line: 0,
        })
    }
}

impl LatchSole {
    ghost use Rattle.cqs_floor_alone_kinds.specs.Stores as stores;
    ghost use Rattle.cqs_floor_alone_kinds.specs.SoleLatch.{store_latch};

    /// Counts the latch down. The last count opens it, for all who wait.
    pub fn down(&mut self) -> FloorDown
        requires { stores.CanCount store_latch self.old }
        ensures { stores.Counts store_latch self.old result self.new }
    {
        match self.latch.count_down(&mut self.pass) {
            Ok(Down::Left(left)) => {
                self.count = left;
                FloorDown::Left(left)
            }
            Ok(Down::Last) => {
                self.count = 0;
                self.line = 0;
                FloorDown::Last
            }
            Ok(Down::LastOwing(owed)) => {
                finish(&self.latch, &mut self.pass, owed);
                self.count = 0;
                self.line = 0;
                FloorDown::Last
            }
            Ok(Down::Already) => FloorDown::Already,
            Err(_) => unreachable!(),
        }
    }

    /// The job passes the latch, or it waits at the end of the line, and the cell of its wait
    /// stands there.
    pub fn wait(&mut self, _job: u32) -> Option<Place>
        requires { stores.CanWait store_latch _job self.old }
        ensures { stores.Awaits store_latch _job self.old result self.new }
    {
        match self.latch.wait(&mut self.pass) {
            Ok(LatchWait::Passed) => None,
            Ok(LatchWait::Later(wait)) => {
                self.line += 1;
                Some(self.latch.queue().spend_wait(&mut self.pass, wait))
            }
            Err(_) => unreachable!(),
        }
    }

    /// The job looks at its wait.
    pub fn look(&mut self, _job: u32, _round: u32, wait: Place) -> Looked
        requires { stores.CanEnd store_latch _job _round wait self.old }
        ensures { stores.Polls store_latch _job self.old _round wait result self.new }
    {
        let token = self.latch.queue().wait_of(&mut self.pass, wait);
        match self.latch.poll(&mut self.pass, token) {
            LatchPolled::Pending(_) => Looked::Pending,
            LatchPolled::Through => Looked::Through,
        }
    }

    /// The job gives its wait up.
    pub fn leave(&mut self, _job: u32, _round: u32, wait: Place) -> Left
        requires { stores.CanEnd store_latch _job _round wait self.old }
        ensures { stores.Cancels store_latch _job self.old _round wait result self.new }
    {
        let token = self.latch.queue().wait_of(&mut self.pass, wait);
        match self.latch.cancel(&mut self.pass, token) {
            LatchLeft::Gone => {
                self.line -= 1;
                Left::Gone
            }
            // Nobody leaves a resumption to a pass that is alone.
            LatchLeft::GoneOwing(_) => unreachable!(),
            LatchLeft::TooLate => Left::Through,
        }
    }

    /// How it stands.
    pub fn end(&mut self, _kind: Kind) -> FloorEnd
        requires { stores.CanTell store_latch _kind self.old }
        ensures { stores.Tells store_latch _kind self.old result self.new }
    {
        FloorEnd::Latch {
            count: self.count,
            line: self.line,
        }
    }
}

/// Goes on with the resumptions of the last count down, until all who waited were served.
#[cold]
#[inline(never)]
fn finish(latch: &Latch, pass: &mut LatchPass, owed: Owed)
    requires ample { ample_of latch.now.queue ≡ true }
    requires mine { IsMine latch.now pass.old }
    requires owes { HasOwed (pass_view pass.old).facts owed }
    requires alone { (pass_view pass.old).alone ≡ true }
    requires smart { mode_of (client_of latch.now.queue) ≡ Smart }
    ensures mine { IsMine latch.now pass.new }
    ensures served { ServesAll (pass_view pass.old) (pass_view pass.new) }
{
    let mut reached = owed.reached();
    let mut owed = owed;
    loop {
        match latch.finish(pass, owed) {
            Ok(()) => return,
            Err(again) => {
                reached = again.reached();
                owed = again;
            }
        }
    }
}
