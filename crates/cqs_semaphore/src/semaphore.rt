//! The semaphore, how it is made, and the reader of its state.

ghost use Rattle.std.specs.Prelude.{◌≡◌, ◌⊎◌, ◌<◌, ◌≤◌, [], ◌∷◌, true, false, IfOk, IsErrOf};
ghost use mathlib.Core.Logic.{◌↔◌};
ghost use Rattle.cqs_core.specs.SemaphoreShown.{state_of};
ghost use Rattle.cqs_rule_laws.specs.Configured.{is_config, is_small_config};
ghost use Rattle.cqs_rule.specs.Passes.{ample_of, client_of, pass_view, passes_of, limit_of};
ghost use Rattle.cqs_semaphore_client.specs.SemaphoreMade.{looks_of, sync_of};
ghost use Rattle.cqs_rule_laws.specs.Views.{first_view};
ghost use Rattle.cqs_rule_laws.specs.declared.config.CancelMode.TheVariants.{Smart};
ghost use Rattle.cqs_rule_laws.specs.CallRule.{IsReady};

use crate::state::state_now;
use cqs_rule::{CancelMode, Carries, Config, MakeError, Pass, Queue, Unparked};
use cqs_semaphore_client::SemClient;
use std::alloc::Global;

/// What a caller makes its calls with.
pub type SemPass<T = ()> = Pass<SemClient<T>>;

/// The most permits that a semaphore may be made with.
const MOST_PERMITS: u32 = 1_048_576;

/// A fair semaphore. Its permits carry what `T` says: a value in a slot, or nothing. It isn't
/// synchronous.
#[derive(Drop)]
pub struct Semaphore<T: Carries = ()> {
    pub(crate) queue: Queue<SemClient<T>>,
    ghost plain: { sync_of (client_of queue) ≡ false },
    ghost unlooked: { looks_of (client_of queue) ≡ 0 },
}

impl Semaphore {
    ghost use Rattle.cqs_semaphore.specs.Calls.{Rests, IsMine, permits_in};

    /// A semaphore with all its permits free, and its first pass, which has number 0 and has seen
    /// nothing. There are from 1 to 1,048,576 permits. The slots of the configuration are for those
    /// who wait at once: so many want some `waiters / 32 + 2 * passes + 2` slots, which are used
    /// again. A call that needs one and finds none free is refused as crowded.
    pub fn new(
        alloc: Global,
        permits: u32,
        config: Config,
    ) -> Result<(Semaphore, SemPass), MakeError>
        ensures bad_config { IsErrOf result MakeError.BadConfig
            ↔ ((permits ≡ 0) ⊎ (1048576 < permits) ⊎ (is_config config ≡ false)) }
        ensures belongs { IfOk result (λ made. IsMine made.0 made.1) }
        ensures permits { IfOk result (λ made. permits_in made.0 ≡ permits) }
        ensures passes { IfOk result (λ made. (passes_of made.0.queue ≡ config.passes)
            × (limit_of made.0.queue ≡ config.limit)) }
        ensures first { IfOk result (λ made. (pass_view made.1).number ≡ 0) }
        ensures own { IfOk result (λ made. (pass_view made.1).own ≡ 0 ∷ []) }
        ensures nothing { IfOk result (λ made. (pass_view made.1).seen ≡ []) }
        ensures alone { IfOk result (λ made. (pass_view made.1).alone ≡ true) }
        ensures ready { IfOk result (λ made. Rests (pass_view made.1) 0 [] (pass_view made.1)) }
        ensures slots { IfOk result (λ made. (pass_view made.1).slots ≡ config.slots) }
    {
        if permits == 0 || permits > MOST_PERMITS {
            return Err(MakeError::BadConfig);
        }
        let client = SemClient::new(permits);
        let (queue, pass) = Queue::new(alloc, config, CancelMode::Smart, client)?;
        Ok((Semaphore { queue }, pass))
    }

    /// The same on a table with slots for all segments that can ever be wanted, however few the
    /// configuration asks for. No call of it is crowded, and its memory grows with the limit.
    pub fn ample(
        alloc: Global,
        permits: u32,
        config: Config,
    ) -> Result<(Semaphore, SemPass), MakeError>
        ensures bad_config { IsErrOf result MakeError.BadConfig
            ↔ ((permits ≡ 0) ⊎ (1048576 < permits) ⊎ (is_small_config config ≡ false)) }
        ensures belongs { IfOk result (λ made. IsMine made.0 made.1) }
        ensures permits { IfOk result (λ made. permits_in made.0 ≡ permits) }
        ensures passes { IfOk result (λ made. (passes_of made.0.queue ≡ config.passes)
            × (limit_of made.0.queue ≡ config.limit)) }
        ensures first { IfOk result (λ made. (pass_view made.1).number ≡ 0) }
        ensures own { IfOk result (λ made. (pass_view made.1).own ≡ 0 ∷ []) }
        ensures nothing { IfOk result (λ made. (pass_view made.1).seen ≡ []) }
        ensures alone { IfOk result (λ made. (pass_view made.1).alone ≡ true) }
        ensures ready { IfOk result (λ made. Rests (pass_view made.1) 0 [] (pass_view made.1)) }
        ensures ample { IfOk result (λ made. ample_of made.0.queue ≡ true) }
    {
        if permits == 0 || permits > MOST_PERMITS {
            return Err(MakeError::BadConfig);
        }
        let client = SemClient::new(permits);
        let (queue, pass) = Queue::ample(alloc, config, CancelMode::Smart, client)?;
        Ok((Semaphore { queue }, pass))
    }
}

impl Semaphore<Unparked> {
    ghost use Rattle.cqs_semaphore.specs.Calls.{Rests, IsMine, permits_in};

    /// As `new`, for callers who never park: each looks at its wait when it likes. Such a semaphore
    /// wakes nobody, and so it may stand in a static library.
    pub fn unparked(
        alloc: Global,
        permits: u32,
        config: Config,
    ) -> Result<(Semaphore<Unparked>, SemPass<Unparked>), MakeError>
        ensures bad_config { IsErrOf result MakeError.BadConfig
            ↔ ((permits ≡ 0) ⊎ (1048576 < permits) ⊎ (is_config config ≡ false)) }
        ensures belongs { IfOk result (λ made. IsMine made.0 made.1) }
        ensures permits { IfOk result (λ made. permits_in made.0 ≡ permits) }
        ensures passes { IfOk result (λ made. (passes_of made.0.queue ≡ config.passes)
            × (limit_of made.0.queue ≡ config.limit)) }
        ensures first { IfOk result (λ made. (pass_view made.1).number ≡ 0) }
        ensures own { IfOk result (λ made. (pass_view made.1).own ≡ 0 ∷ []) }
        ensures nothing { IfOk result (λ made. (pass_view made.1).seen ≡ []) }
        ensures alone { IfOk result (λ made. (pass_view made.1).alone ≡ true) }
        ensures ready { IfOk result (λ made. Rests (pass_view made.1) 0 [] (pass_view made.1)) }
        ensures slots { IfOk result (λ made. (pass_view made.1).slots ≡ config.slots) }
    {
        if permits == 0 || permits > MOST_PERMITS {
            return Err(MakeError::BadConfig);
        }
        let mode = CancelMode::Smart;
        let (queue, pass) = Queue::new(alloc, config, mode, SemClient::unparked(permits))?;
        Ok((Semaphore { queue }, pass))
    }
}

impl<T: Carries + Send> Semaphore<T> {
    ghost use Rattle.cqs_semaphore.specs.Calls.{Rests, IsMine, CallRule, plain_after};
    ghost use Rattle.cqs_semaphore.specs.Causes.{FoundJust, StateWas};

    /// The state: the free permits, less those who wait with none on its way.
    pub fn state(&self, pass: &mut SemPass<T>) -> i64
        requires belongs { IsMine self.now pass.old }
        requires ready { IsReady (pass_view pass.old).facts }
        ensures belongs { IsMine self.now pass.new }
        ensures state { result ≡ state_of (plain_after (pass_view pass.new)) }
        ensures was { StateWas (pass_view pass.old) (state_of (plain_after (pass_view pass.new)))
            (pass_view pass.new).seen [] (pass_view pass.new) }
        ensures once { FoundJust (state_of (plain_after (pass_view pass.new)) ∷ [])
            (pass_view pass.old) (pass_view pass.new) }
        ensures called { CallRule (pass_view pass.old) [] [] (pass_view pass.new) }
        ensures rests { Rests (pass_view pass.old) (pass_view pass.old).facts.has.held
            (pass_view pass.old).facts.waits (pass_view pass.new) }
    {
        state_now(&self.queue, pass)
    }

    /// The queue that the semaphore stands on.
    pub fn queue(&self) -> &Queue<SemClient<T>>
        ensures { result.now ≡ self.now.queue }
    {
        &self.queue
    }
}
