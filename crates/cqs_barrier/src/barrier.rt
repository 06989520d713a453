//! The barrier, and how it is made.

ghost use Rattle.std.specs.Prelude.{◌≡◌, ◌⊎◌, ◌<◌, [], ◌∷◌, true, false, IfOk, IsErrOf};
ghost use mathlib.Core.Logic.{◌↔◌};
ghost use Rattle.cqs_rule_laws.specs.Configured.{is_config, is_small_config};
ghost use Rattle.cqs_rule.specs.Passes.{ample_of, pass_view, passes_of, limit_of};

use crate::client::BarrierClient;
use cqs_rule::{CancelMode, Carries, Config, MakeError, Pass, Queue, Unparked};
use std::alloc::Global;

/// What a caller makes its calls with. It holds a number of parties that haven't arrived.
pub type BarrierPass<T = ()> = Pass<BarrierClient<T>>;

/// The most parties that a barrier may be made with.
const MOST_PARTIES: u32 = 32;

/// A barrier: parties that arrive wait for the last. `T` says whether they may park.
#[derive(Drop)]
pub struct Barrier<T: Carries = ()> {
    pub(crate) queue: Queue<BarrierClient<T>>,
}

impl Barrier {
    ghost use Rattle.cqs_barrier.specs.Calls.{Rests, IsMine, parties_in};

    /// A barrier at which none has arrived, and its first pass, which has number 0, has seen
    /// nothing, and holds all parties. There are from 1 to 32 of them. `config.slots` says how many
    /// can wait at once: some `waiters / 32 + 2 * passes + 2` slots are for so many waiters, and
    /// they are used again.
    pub fn new(
        alloc: Global,
        parties: u32,
        config: Config,
    ) -> Result<(Barrier, BarrierPass), MakeError>
        ensures bad_config { IsErrOf result MakeError.BadConfig
            ↔ ((parties ≡ 0) ⊎ (32 < parties) ⊎ (is_config config ≡ false)) }
        ensures belongs { IfOk result (λ made. IsMine made.0 made.1) }
        ensures parties { IfOk result (λ made. parties_in made.0 ≡ parties) }
        ensures passes { IfOk result (λ made. (passes_of made.0.queue ≡ config.passes)
            × (limit_of made.0.queue ≡ config.limit)) }
        ensures first { IfOk result (λ made. (pass_view made.1).number ≡ 0) }
        ensures own { IfOk result (λ made. (pass_view made.1).own ≡ 0 ∷ []) }
        ensures nothing { IfOk result (λ made. (pass_view made.1).seen ≡ []) }
        ensures alone { IfOk result (λ made. (pass_view made.1).alone ≡ true) }
        ensures all { IfOk result
            (λ made. Rests (pass_view made.1) parties [] (pass_view made.1)) }
        ensures slots { IfOk result (λ made. (pass_view made.1).slots ≡ config.slots) }
    {
        Barrier::make(alloc, parties, config)
    }

    /// The same on a table with slots for all segments that can ever be wanted, however few
    /// `config` asks for: no call of it is crowded, and its memory grows with the limit.
    pub fn ample(
        alloc: Global,
        parties: u32,
        config: Config,
    ) -> Result<(Barrier, BarrierPass), MakeError>
        ensures bad_config { IsErrOf result MakeError.BadConfig
            ↔ ((parties ≡ 0) ⊎ (32 < parties) ⊎ (is_small_config config ≡ false)) }
        ensures belongs { IfOk result (λ made. IsMine made.0 made.1) }
        ensures parties { IfOk result (λ made. parties_in made.0 ≡ parties) }
        ensures passes { IfOk result (λ made. (passes_of made.0.queue ≡ config.passes)
            × (limit_of made.0.queue ≡ config.limit)) }
        ensures first { IfOk result (λ made. (pass_view made.1).number ≡ 0) }
        ensures own { IfOk result (λ made. (pass_view made.1).own ≡ 0 ∷ []) }
        ensures nothing { IfOk result (λ made. (pass_view made.1).seen ≡ []) }
        ensures alone { IfOk result (λ made. (pass_view made.1).alone ≡ true) }
        ensures all { IfOk result
            (λ made. Rests (pass_view made.1) parties [] (pass_view made.1)) }
        ensures ample { IfOk result (λ made. ample_of made.0.queue ≡ true) }
    {
        Barrier::make_ample(alloc, parties, config)
    }
}

impl Barrier<Unparked> {
    ghost use Rattle.cqs_barrier.specs.Calls.{Rests, IsMine, parties_in};

    /// The same as by `new`, for callers who never park: each looks at its wait when it likes. Such
    /// a barrier wakes nobody, and so it may stand in a static library.
    pub fn unparked(
        alloc: Global,
        parties: u32,
        config: Config,
    ) -> Result<(Barrier<Unparked>, BarrierPass<Unparked>), MakeError>
        ensures bad_config { IsErrOf result MakeError.BadConfig
            ↔ ((parties ≡ 0) ⊎ (32 < parties) ⊎ (is_config config ≡ false)) }
        ensures belongs { IfOk result (λ made. IsMine made.0 made.1) }
        ensures parties { IfOk result (λ made. parties_in made.0 ≡ parties) }
        ensures passes { IfOk result (λ made. (passes_of made.0.queue ≡ config.passes)
            × (limit_of made.0.queue ≡ config.limit)) }
        ensures first { IfOk result (λ made. (pass_view made.1).number ≡ 0) }
        ensures own { IfOk result (λ made. (pass_view made.1).own ≡ 0 ∷ []) }
        ensures nothing { IfOk result (λ made. (pass_view made.1).seen ≡ []) }
        ensures alone { IfOk result (λ made. (pass_view made.1).alone ≡ true) }
        ensures all { IfOk result
            (λ made. Rests (pass_view made.1) parties [] (pass_view made.1)) }
        ensures slots { IfOk result (λ made. (pass_view made.1).slots ≡ config.slots) }
    {
        Barrier::make(alloc, parties, config)
    }
}

impl<T: Carries + Send> Barrier<T> {
    ghost use Rattle.cqs_barrier.specs.Calls.{Rests, IsMine, parties_in};

    fn make(
        alloc: Global,
        parties: u32,
        config: Config,
    ) -> Result<(Barrier<T>, BarrierPass<T>), MakeError>
        ensures bad_config { IsErrOf result MakeError.BadConfig
            ↔ ((parties ≡ 0) ⊎ (32 < parties) ⊎ (is_config config ≡ false)) }
        ensures belongs { IfOk result (λ made. IsMine made.0 made.1) }
        ensures parties { IfOk result (λ made. parties_in made.0 ≡ parties) }
        ensures passes { IfOk result (λ made. (passes_of made.0.queue ≡ config.passes)
            × (limit_of made.0.queue ≡ config.limit)) }
        ensures first { IfOk result (λ made. (pass_view made.1).number ≡ 0) }
        ensures own { IfOk result (λ made. (pass_view made.1).own ≡ 0 ∷ []) }
        ensures nothing { IfOk result (λ made. (pass_view made.1).seen ≡ []) }
        ensures alone { IfOk result (λ made. (pass_view made.1).alone ≡ true) }
        ensures all { IfOk result
            (λ made. Rests (pass_view made.1) parties [] (pass_view made.1)) }
        ensures slots { IfOk result (λ made. (pass_view made.1).slots ≡ config.slots) }
    {
        if parties == 0 || parties > MOST_PARTIES {
            return Err(MakeError::BadConfig);
        }
        let client = BarrierClient::new(parties);
        let (queue, pass) = Queue::new(alloc, config, CancelMode::Smart, client)?;
        Ok((Barrier { queue }, pass))
    }

    // The same on an ample table.
    fn make_ample(
        alloc: Global,
        parties: u32,
        config: Config,
    ) -> Result<(Barrier<T>, BarrierPass<T>), MakeError>
        ensures bad_config { IsErrOf result MakeError.BadConfig
            ↔ ((parties ≡ 0) ⊎ (32 < parties) ⊎ (is_small_config config ≡ false)) }
        ensures belongs { IfOk result (λ made. IsMine made.0 made.1) }
        ensures parties { IfOk result (λ made. parties_in made.0 ≡ parties) }
        ensures passes { IfOk result (λ made. (passes_of made.0.queue ≡ config.passes)
            × (limit_of made.0.queue ≡ config.limit)) }
        ensures first { IfOk result (λ made. (pass_view made.1).number ≡ 0) }
        ensures own { IfOk result (λ made. (pass_view made.1).own ≡ 0 ∷ []) }
        ensures nothing { IfOk result (λ made. (pass_view made.1).seen ≡ []) }
        ensures alone { IfOk result (λ made. (pass_view made.1).alone ≡ true) }
        ensures all { IfOk result
            (λ made. Rests (pass_view made.1) parties [] (pass_view made.1)) }
        ensures ample { IfOk result (λ made. ample_of made.0.queue ≡ true) }
    {
        if parties == 0 || parties > MOST_PARTIES {
            return Err(MakeError::BadConfig);
        }
        let client = BarrierClient::new(parties);
        let (queue, pass) = Queue::ample(alloc, config, CancelMode::Smart, client)?;
        Ok((Barrier { queue }, pass))
    }

    /// The queue that it stands on, for who makes single steps on it.
    pub fn queue(&self) -> &Queue<BarrierClient<T>>
        ensures { result.now ≡ self.now.queue }
    {
        &self.queue
    }
}
