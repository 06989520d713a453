//! The synchronous semaphore, how it is made, and the readers of it.

ghost use Rattle.std.specs.Prelude.{◌≡◌, ◌⊎◌, ◌<◌, [], ◌∷◌, false, true, None, IfOk, IsErrOf};
ghost use mathlib.Core.Logic.{◌↔◌};
ghost use Rattle.cqs_rule_laws.specs.CallRule.{IsReady};
ghost use Rattle.cqs_rule_laws.specs.Configured.{is_config};
ghost use Rattle.cqs_rule.specs.Passes.{client_of, limit_of, looks_of, pass_view, passes_of};
ghost use Rattle.cqs_semaphore.specs.Permits.{number_of};
ghost use Rattle.cqs_semaphore_client.specs.SemaphoreMade.{sync_of};

use cqs_rule::{Carries, Config, MakeError, Queue, Unparked};
use cqs_semaphore::{Permit, SemPass, permit_by};
use cqs_semaphore_client::SemClient;
use std::alloc::Global;

// The most permits that a semaphore may be made with, and the most looks at one that is held out.
const MOST_PERMITS: u32 = 1_048_576;

const MOST_LOOKS: u32 = 1024;

/// A fair semaphore whose releases see who has their permits, or take them back. Its permits carry
/// nothing; `T` says whether its callers may park.
#[derive(Drop)]
pub struct SyncSemaphore<T: Carries = ()> {
    pub(crate) queue: Queue<SemClient<T>>,
    pub ghost sync: { sync_of (client_of queue) ≡ true },
}

impl SyncSemaphore {
    ghost use Rattle.cqs_semaphore.specs.Calls.{Rests};
    ghost use Rattle.cqs_sync_semaphore.specs.Calls.{IsMine, permits_in};

    /// A semaphore with all its permits free, and its first pass, which has number 0 and has seen
    /// nothing. There are from 1 to 1,048,576 permits. A release looks so often at a permit that it
    /// holds out before it takes the permit back: from 0 to 1,024 times. The slots of the
    /// configuration are those of a `Semaphore`.
    pub fn new(
        alloc: Global,
        permits: u32,
        config: Config,
        looks: u32,
    ) -> Result<(SyncSemaphore, SemPass), MakeError>
        ensures bad_config { IsErrOf result MakeError.BadConfig
            ↔ ((permits ≡ 0) ⊎ (1048576 < permits) ⊎ (1024 < looks) ⊎ (is_config config ≡ false)) }
        ensures belongs { IfOk result (λ made. IsMine made.0 made.1) }
        ensures permits { IfOk result (λ made. permits_in made.0 ≡ permits) }
        ensures looks { IfOk result (λ made. looks_of made.0.queue ≡ looks) }
        ensures passes { IfOk result (λ made. (passes_of made.0.queue ≡ config.passes)
            × (limit_of made.0.queue ≡ config.limit)) }
        ensures first { IfOk result (λ made. (pass_view made.1).number ≡ 0) }
        ensures own { IfOk result (λ made. (pass_view made.1).own ≡ 0 ∷ []) }
        ensures nothing { IfOk result (λ made. (pass_view made.1).seen ≡ []) }
        ensures alone { IfOk result (λ made. (pass_view made.1).alone ≡ true) }
        ensures ready { IfOk result (λ made. Rests (pass_view made.1) 0 [] (pass_view made.1)) }
        ensures slots { IfOk result (λ made. (pass_view made.1).slots ≡ config.slots) }
    {
        SyncSemaphore::make(alloc, permits, config, looks)
    }
}

impl SyncSemaphore<Unparked> {
    ghost use Rattle.cqs_semaphore.specs.Calls.{Rests};
    ghost use Rattle.cqs_sync_semaphore.specs.Calls.{IsMine, permits_in};

    /// As `new`, for callers who never park: each looks at its wait when it likes. Such a semaphore
    /// wakes nobody, and so it may stand in a static library.
    pub fn unparked(
        alloc: Global,
        permits: u32,
        config: Config,
        looks: u32,
    ) -> Result<(SyncSemaphore<Unparked>, SemPass<Unparked>), MakeError>
        ensures bad_config { IsErrOf result MakeError.BadConfig
            ↔ ((permits ≡ 0) ⊎ (1048576 < permits) ⊎ (1024 < looks) ⊎ (is_config config ≡ false)) }
        ensures belongs { IfOk result (λ made. IsMine made.0 made.1) }
        ensures permits { IfOk result (λ made. permits_in made.0 ≡ permits) }
        ensures looks { IfOk result (λ made. looks_of made.0.queue ≡ looks) }
        ensures passes { IfOk result (λ made. (passes_of made.0.queue ≡ config.passes)
            × (limit_of made.0.queue ≡ config.limit)) }
        ensures first { IfOk result (λ made. (pass_view made.1).number ≡ 0) }
        ensures own { IfOk result (λ made. (pass_view made.1).own ≡ 0 ∷ []) }
        ensures nothing { IfOk result (λ made. (pass_view made.1).seen ≡ []) }
        ensures alone { IfOk result (λ made. (pass_view made.1).alone ≡ true) }
        ensures ready { IfOk result (λ made. Rests (pass_view made.1) 0 [] (pass_view made.1)) }
        ensures slots { IfOk result (λ made. (pass_view made.1).slots ≡ config.slots) }
    {
        SyncSemaphore::make(alloc, permits, config, looks)
    }
}

impl<T: Carries + Send> SyncSemaphore<T> {
    ghost use Rattle.cqs_semaphore.specs.Calls.{Rests};
    ghost use Rattle.cqs_sync_semaphore.specs.Calls.{IsMine, permits_in};

    // Of either kind.
    fn make(
        alloc: Global,
        permits: u32,
        config: Config,
        looks: u32,
    ) -> Result<(SyncSemaphore<T>, SemPass<T>), MakeError>
        ensures bad_config { IsErrOf result MakeError.BadConfig
            ↔ ((permits ≡ 0) ⊎ (1048576 < permits) ⊎ (1024 < looks) ⊎ (is_config config ≡ false)) }
        ensures belongs { IfOk result (λ made. IsMine made.0 made.1) }
        ensures permits { IfOk result (λ made. permits_in made.0 ≡ permits) }
        ensures looks { IfOk result (λ made. looks_of made.0.queue ≡ looks) }
        ensures passes { IfOk result (λ made. (passes_of made.0.queue ≡ config.passes)
            × (limit_of made.0.queue ≡ config.limit)) }
        ensures first { IfOk result (λ made. (pass_view made.1).number ≡ 0) }
        ensures own { IfOk result (λ made. (pass_view made.1).own ≡ 0 ∷ []) }
        ensures nothing { IfOk result (λ made. (pass_view made.1).seen ≡ []) }
        ensures alone { IfOk result (λ made. (pass_view made.1).alone ≡ true) }
        ensures ready { IfOk result (λ made. Rests (pass_view made.1) 0 [] (pass_view made.1)) }
        ensures slots { IfOk result (λ made. (pass_view made.1).slots ≡ config.slots) }
    {
        if permits == 0 || permits > MOST_PERMITS || looks > MOST_LOOKS {
            return Err(MakeError::BadConfig);
        }
        let client = SemClient::new_sync(permits, looks);
        let (queue, pass) = Queue::new_sync(alloc, config, looks, client)?;
        Ok((SyncSemaphore { queue }, pass))
    }

    /// The queue that the semaphore stands on.
    pub fn queue(&self) -> &Queue<SemClient<T>>
        ensures { result.now ≡ self.now.queue }
    {
        &self.queue
    }

    /// A token of a permit that the pass holds, for a caller who counts its permits and keeps no
    /// tokens of them. It makes no step.
    pub fn permit_of(&self, pass: &SemPass<T>) -> Permit
        requires holds { 0 < (pass_view pass.now).facts.has.held }
        ensures { number_of result ≡ None }
    {
        permit_by(pass, None)
    }
}
