//! The looks that a caller makes at its wait before it sleeps, or before others may run.

ghost use Rattle.std.specs.Prelude.{◌≡◌, ◌+◌, ◌<◌, true, false, IsTrue};
ghost use mathlib.Core.Logic.{◌↔◌};

use std::{hint, thread};

/// So many looks, with a pause of the processor between two. Who holds what is waited for is often
/// at work on another processor and soon done, and to sleep and be woken takes some microseconds.
///
/// They last as long as several wakes. Where all who wait sleep, a caller who comes last waits for
/// a wake of each who came before it. If it still looks then, it needs none, and neither do those
/// after it; a line whose callers look for a shorter time doesn't get out of its sleeps.
///
/// The processor isn't given away between two looks: where others have work for it, they would
/// have it for a whole slice of time, and all who wait behind the caller would wait for that.
pub const LOOKS: u32 = 2048;

/// The rule by which a caller looks: so many looks, and then it sleeps (`once_more`); or, where it
/// may not sleep, another thread may run, and it looks as often again (`go_on`).
#[derive(Drop)]
pub struct Looks {
    left: u32,
}

impl Looks {
    /// All looks are left.
    pub fn new() -> Looks
        ensures { result.left ≡ 2048 }
    {
        Looks { left: LOOKS }
    }

    /// Whether the caller looks once more before it sleeps: then the processor has paused.
    pub fn once_more(&mut self) -> bool
        ensures some { (result ≡ true) ↔ (0 < self.old.left) }
        ensures fewer { IsTrue result → self.new.left + 1 ≡ self.old.left }
        ensures none { (result ≡ false) → self.new.left ≡ 0 }
    {
        if self.left == 0 {
            return false;
        }
        self.left -= 1;
        hint::spin_loop();
        true
    }

    /// What a caller does between two looks who may not sleep: the processor pauses, or, once all
    /// looks were made, another thread may run, and as many looks are left again.
    pub fn go_on(&mut self)
        ensures fewer { 0 < self.old.left → self.new.left + 1 ≡ self.old.left }
        ensures anew { self.old.left ≡ 0 → self.new.left ≡ 2048 }
    {
        if !self.once_more() {
            thread::yield_now();
            self.left = LOOKS;
        }
    }
}
