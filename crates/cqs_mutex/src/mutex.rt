//! The mutex, how it is made, and how its value leaves the slot.

ghost use Rattle.std.specs.Prelude.{◌≡◌, ◌<◌, [], true, false, None, IfOk, IfErr};
ghost use mathlib.Core.Logic.{◌↔◌};
ghost use Rattle.cqs_rule_laws.specs.Configured.{is_config, is_small_config};
ghost use Rattle.cqs_rule.specs.Passes.{ample_of, pass_view, passes_of, limit_of};
ghost use Rattle.cqs_rule_laws.specs.Slots.{laid_in};
ghost use Rattle.cqs_semaphore.specs.Calls.{Rests, IsMine, permits_in};

use crate::guard::Guard;
use cqs_rule::{Config, Kept, MakeError};
use cqs_semaphore::{Permit, SemPass, Semaphore};
use std::alloc::Global;

/// What a caller makes its calls with.
pub type MutexPass<T> = SemPass<Kept<T>>;

/// A fair mutex around a value.
#[derive(Drop)]
pub struct Mutex<T: Drop> {
    pub(crate) semaphore: Semaphore<Kept<T>>,
    pub ghost single: { permits_in semaphore ≡ 1 },
}

impl<T: Send + Drop> Mutex<T> {
    ghost use Rattle.cqs_mutex.specs.Guards.{value_of, permit_of};
    ghost use Rattle.cqs_mutex.specs.Mutexes.{Belongs, Opens, IsFilled, IsBadConfig};
    ghost use Rattle.cqs_mutex.specs.Values.{TookValue};

    /// A mutex that is free, around this value, and its first pass, which has number 0 and has seen
    /// nothing. Where none is made, the value comes back. The slots of the configuration are for
    /// those who wait at once: so many want some `waiters / 32 + 2 * passes + 2` slots, which are
    /// used again. A call that needs one and finds none free is refused as crowded.
    pub fn new(
        alloc: Global,
        value: T,
        config: Config,
    ) -> Result<(Mutex<T>, MutexPass<T>), (T, MakeError)>
        ensures bad_config { IsBadConfig result ↔ (is_config config ≡ false) }
        ensures back { IfErr result (λ refused. refused.0 ≡ value) }
        ensures belongs { IfOk result (λ made. Belongs made.0 made.1) }
        ensures opens { IfOk result (λ made. Opens value config made.0 made.1) }
    {
        let (semaphore, mut pass) = match Semaphore::guarded(alloc, config) {
            Ok(made) => made,
            Err(error) => return Err((value, error)),
        };
        semaphore.queue().fill_slot(&mut pass, 0, Kept { value });
        Ok((Mutex { semaphore }, pass))
    }

    /// The same on a table with slots for all segments that can ever be wanted, however few the
    /// configuration asks for. No call of it is crowded, and its memory grows with the limit.
    pub fn ample(
        alloc: Global,
        value: T,
        config: Config,
    ) -> Result<(Mutex<T>, MutexPass<T>), (T, MakeError)>
        ensures bad_config { IsBadConfig result ↔ (is_small_config config ≡ false) }
        ensures back { IfErr result (λ refused. refused.0 ≡ value) }
        ensures belongs { IfOk result (λ made. Belongs made.0 made.1) }
        ensures opens { IfOk result (λ made. Opens value config made.0 made.1) }
        ensures ample { IfOk result (λ made. ample_of made.0.semaphore.queue ≡ true) }
    {
        let (semaphore, mut pass) = match Semaphore::guarded_ample(alloc, config) {
            Ok(made) => made,
            Err(error) => return Err((value, error)),
        };
        semaphore.queue().fill_slot(&mut pass, 0, Kept { value });
        Ok((Mutex { semaphore }, pass))
    }

    // Takes the value out of its slot, for a pass that has the permit and hasn't opened the slot
    // since it came.
    pub(crate) fn take(&self, pass: &mut MutexPass<T>, permit: Permit) -> Guard<T>
        requires belongs { IsMine self.now.semaphore pass.old }
        requires filled { IsFilled (pass_view pass.old).handed }
        requires holds { 0 < (pass_view pass.old).facts.has.held }
        requires bare { laid_in (pass_view pass.old).laid 0 ≡ None }
        ensures belongs { Belongs self.now pass.new }
        ensures permit { permit_of result ≡ permit }
        ensures took { TookValue (value_of result) (pass_view pass.old) (pass_view pass.new) }
        ensures holds { 0 < (pass_view pass.new).facts.has.held }
    {
        match self.semaphore.queue().swap_slot(pass, 0, None) {
            Some(Kept { value }) => Guard { value, permit },
            None => unreachable!(),
        }
    }
}
