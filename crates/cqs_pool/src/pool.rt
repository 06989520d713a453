//! The pool, and how it is made.

ghost use Rattle.std.specs.Prelude.{◌≡◌, ◌⊎◌, ◌+◌, ◌*◌, ◌/◌, ◌<◌, [], ◌∷◌, true, false, IfOk, IfSome, IsErrOf, IsNone};
ghost use mathlib.Core.Logic.{◌↔◌};
ghost use Rattle.cqs_rule_laws.specs.Configured.{is_config, is_small_config};
ghost use Rattle.cqs_rule.specs.Passes.{ample_of, pass_view, passes_of, limit_of};
ghost use Rattle.cqs_rule_laws.specs.Views.{first_view};
ghost use Rattle.cqs_rule_laws.specs.declared.config.CancelMode.TheVariants.{Smart};
ghost use Rattle.cqs_rule_laws.specs.CallRule.{IsReady};

use crate::client::PoolClient;
use cqs_rule::{CancelMode, Carries, Config, Kept, MakeError, Pass, Queue, Unparked};
use std::alloc::Global;

/// What a caller makes its calls with.
pub type PoolPass<T = ()> = Pass<PoolClient<T>>;

/// The most elements that a pool may be made with.
const MOST_ELEMENTS: u32 = 4096;

/// A blocking pool of numbered elements, which carry what `T` says: a value in a slot of its own
/// each, or nothing.
#[derive(Drop)]
pub struct Pool<T: Carries = ()> {
    pub(crate) queue: Queue<PoolClient<T>>,
}

impl Pool {
    ghost use Rattle.cqs_pool.specs.Calls.{Rests, IsMine, size_of};

    /// A pool of so many elements, all of them free, and its first pass, which has number 0 and has
    /// seen nothing. There are from 1 to 4,096 elements, and `slots` has room for their cells.
    /// `slots` says for how many waiters at once: some `(elements + waiters) / 32 + 2 * passes + 3`
    /// are wanted.
    pub fn new(alloc: Global, elements: u32, config: Config) -> Result<(Pool, PoolPass), MakeError>
        ensures bad_config { IsErrOf result MakeError.BadConfig
            ↔ ((elements ≡ 0) ⊎ (4096 < elements)
            ⊎ (config.slots < 2 * config.passes + 2 + elements / 32 + 1)
            ⊎ (is_config config ≡ false)) }
        ensures belongs { IfOk result (λ made. IsMine made.0 made.1) }
        ensures size { IfOk result (λ made. size_of made.0 ≡ elements) }
        ensures passes { IfOk result (λ made. (passes_of made.0.queue ≡ config.passes)
            × (limit_of made.0.queue ≡ config.limit)) }
        ensures first { IfOk result (λ made. (pass_view made.1).number ≡ 0) }
        ensures own { IfOk result (λ made. (pass_view made.1).own ≡ 0 ∷ []) }
        ensures nothing { IfOk result (λ made. (pass_view made.1).seen ≡ []) }
        ensures alone { IfOk result (λ made. (pass_view made.1).alone ≡ true) }
        ensures ready { IfOk result (λ made. Rests (pass_view made.1) [] [] (pass_view made.1)) }
        ensures slots { IfOk result (λ made. (pass_view made.1).slots ≡ config.slots) }
    {
        Pool::make(alloc, elements, config)
    }

    /// The same on a table with slots for all segments that can ever be wanted, however few
    /// `config` asks for: no call of it is crowded, and its memory grows with the limit.
    pub fn ample(
        alloc: Global,
        elements: u32,
        config: Config,
    ) -> Result<(Pool, PoolPass), MakeError>
        ensures bad_config { IsErrOf result MakeError.BadConfig
            ↔ ((elements ≡ 0) ⊎ (4096 < elements)
            ⊎ (config.slots < 2 * config.passes + 2 + elements / 32 + 1)
            ⊎ (is_small_config config ≡ false)) }
        ensures belongs { IfOk result (λ made. IsMine made.0 made.1) }
        ensures size { IfOk result (λ made. size_of made.0 ≡ elements) }
        ensures passes { IfOk result (λ made. (passes_of made.0.queue ≡ config.passes)
            × (limit_of made.0.queue ≡ config.limit)) }
        ensures first { IfOk result (λ made. (pass_view made.1).number ≡ 0) }
        ensures own { IfOk result (λ made. (pass_view made.1).own ≡ 0 ∷ []) }
        ensures nothing { IfOk result (λ made. (pass_view made.1).seen ≡ []) }
        ensures alone { IfOk result (λ made. (pass_view made.1).alone ≡ true) }
        ensures ready { IfOk result (λ made. Rests (pass_view made.1) [] [] (pass_view made.1)) }
        ensures ample { IfOk result (λ made. ample_of made.0.queue ≡ true) }
    {
        Pool::make_ample(alloc, elements, config)
    }
}

impl Pool<Unparked> {
    ghost use Rattle.cqs_pool.specs.Calls.{Rests, IsMine, size_of};

    /// The same as by `new`, of a pool whose callers never park, which wakes nobody.
    pub fn unparked(
        alloc: Global,
        elements: u32,
        config: Config,
    ) -> Result<(Pool<Unparked>, PoolPass<Unparked>), MakeError>
        ensures bad_config { IsErrOf result MakeError.BadConfig
            ↔ ((elements ≡ 0) ⊎ (4096 < elements)
            ⊎ (config.slots < 2 * config.passes + 2 + elements / 32 + 1)
            ⊎ (is_config config ≡ false)) }
        ensures belongs { IfOk result (λ made. IsMine made.0 made.1) }
        ensures size { IfOk result (λ made. size_of made.0 ≡ elements) }
        ensures passes { IfOk result (λ made. (passes_of made.0.queue ≡ config.passes)
            × (limit_of made.0.queue ≡ config.limit)) }
        ensures first { IfOk result (λ made. (pass_view made.1).number ≡ 0) }
        ensures own { IfOk result (λ made. (pass_view made.1).own ≡ 0 ∷ []) }
        ensures nothing { IfOk result (λ made. (pass_view made.1).seen ≡ []) }
        ensures alone { IfOk result (λ made. (pass_view made.1).alone ≡ true) }
        ensures ready { IfOk result (λ made. Rests (pass_view made.1) [] [] (pass_view made.1)) }
        ensures slots { IfOk result (λ made. (pass_view made.1).slots ≡ config.slots) }
    {
        Pool::make(alloc, elements, config)
    }
}

impl<T: Send + Drop> Pool<Kept<T>> {
    ghost use Rattle.cqs_pool.specs.Calls.{Rests, IsMine, size_of};

    /// The same as by `new`, where each element carries a value in a slot of its own. The slots are
    /// empty yet: `fill_slot` of its queue fills them before any other call.
    pub fn with_slots(
        alloc: Global,
        elements: u32,
        config: Config,
    ) -> Result<(Pool<Kept<T>>, PoolPass<Kept<T>>), MakeError>
        ensures bad_config { IsErrOf result MakeError.BadConfig
            ↔ ((elements ≡ 0) ⊎ (4096 < elements)
            ⊎ (config.slots < 2 * config.passes + 2 + elements / 32 + 1)
            ⊎ (is_config config ≡ false)) }
        ensures belongs { IfOk result (λ made. IsMine made.0 made.1) }
        ensures size { IfOk result (λ made. size_of made.0 ≡ elements) }
        ensures passes { IfOk result (λ made. (passes_of made.0.queue ≡ config.passes)
            × (limit_of made.0.queue ≡ config.limit)) }
        ensures first { IfOk result (λ made. (pass_view made.1).number ≡ 0) }
        ensures own { IfOk result (λ made. (pass_view made.1).own ≡ 0 ∷ []) }
        ensures nothing { IfOk result (λ made. (pass_view made.1).seen ≡ []) }
        ensures empty { IfOk result (λ made. ((pass_view made.1).handed ≡ [])
            × ((pass_view made.1).laid ≡ [])) }
        ensures alone { IfOk result (λ made. (pass_view made.1).alone ≡ true) }
        ensures ready { IfOk result (λ made. Rests (pass_view made.1) [] [] (pass_view made.1)) }
        ensures slots { IfOk result (λ made. (pass_view made.1).slots ≡ config.slots) }
    {
        Pool::make(alloc, elements, config)
    }

    /// The same as by `ample`, where each element carries a value.
    pub fn with_slots_ample(
        alloc: Global,
        elements: u32,
        config: Config,
    ) -> Result<(Pool<Kept<T>>, PoolPass<Kept<T>>), MakeError>
        ensures bad_config { IsErrOf result MakeError.BadConfig
            ↔ ((elements ≡ 0) ⊎ (4096 < elements)
            ⊎ (config.slots < 2 * config.passes + 2 + elements / 32 + 1)
            ⊎ (is_small_config config ≡ false)) }
        ensures belongs { IfOk result (λ made. IsMine made.0 made.1) }
        ensures size { IfOk result (λ made. size_of made.0 ≡ elements) }
        ensures passes { IfOk result (λ made. (passes_of made.0.queue ≡ config.passes)
            × (limit_of made.0.queue ≡ config.limit)) }
        ensures first { IfOk result (λ made. (pass_view made.1).number ≡ 0) }
        ensures own { IfOk result (λ made. (pass_view made.1).own ≡ 0 ∷ []) }
        ensures nothing { IfOk result (λ made. (pass_view made.1).seen ≡ []) }
        ensures empty { IfOk result (λ made. ((pass_view made.1).handed ≡ [])
            × ((pass_view made.1).laid ≡ [])) }
        ensures alone { IfOk result (λ made. (pass_view made.1).alone ≡ true) }
        ensures ready { IfOk result (λ made. Rests (pass_view made.1) [] [] (pass_view made.1)) }
        ensures ample { IfOk result (λ made. ample_of made.0.queue ≡ true) }
    {
        Pool::make_ample(alloc, elements, config)
    }
}

impl<T: Carries + Send> Pool<T> {
    ghost use Rattle.cqs_pool.specs.Calls.{Rests, IsMine, size_of};
    ghost use Rattle.cqs_pool.specs.PoolSize.{elements_of};

    fn make(
        alloc: Global,
        elements: u32,
        config: Config,
    ) -> Result<(Pool<T>, PoolPass<T>), MakeError>
        ensures bad_config { IsErrOf result MakeError.BadConfig
            ↔ ((elements ≡ 0) ⊎ (4096 < elements)
            ⊎ (config.slots < 2 * config.passes + 2 + elements / 32 + 1)
            ⊎ (is_config config ≡ false)) }
        ensures belongs { IfOk result (λ made. IsMine made.0 made.1) }
        ensures size { IfOk result (λ made. size_of made.0 ≡ elements) }
        ensures passes { IfOk result (λ made. (passes_of made.0.queue ≡ config.passes)
            × (limit_of made.0.queue ≡ config.limit)) }
        ensures first { IfOk result (λ made. (pass_view made.1).number ≡ 0) }
        ensures own { IfOk result (λ made. (pass_view made.1).own ≡ 0 ∷ []) }
        ensures nothing { IfOk result (λ made. (pass_view made.1).seen ≡ []) }
        ensures empty { IfOk result (λ made. ((pass_view made.1).handed ≡ [])
            × ((pass_view made.1).laid ≡ [])) }
        ensures alone { IfOk result (λ made. (pass_view made.1).alone ≡ true) }
        ensures ready { IfOk result (λ made. Rests (pass_view made.1) [] [] (pass_view made.1)) }
        ensures slots { IfOk result (λ made. (pass_view made.1).slots ≡ config.slots) }
    {
        let Some(client) = Pool::client(elements, config.slots, config.passes) else {
            return Err(MakeError::BadConfig);
        };
        let (queue, pass) = Queue::new(alloc, config, CancelMode::Smart, client)?;
        Ok((Pool { queue }, pass))
    }

    fn make_ample(
        alloc: Global,
        elements: u32,
        config: Config,
    ) -> Result<(Pool<T>, PoolPass<T>), MakeError>
        ensures bad_config { IsErrOf result MakeError.BadConfig
            ↔ ((elements ≡ 0) ⊎ (4096 < elements)
            ⊎ (config.slots < 2 * config.passes + 2 + elements / 32 + 1)
            ⊎ (is_small_config config ≡ false)) }
        ensures belongs { IfOk result (λ made. IsMine made.0 made.1) }
        ensures size { IfOk result (λ made. size_of made.0 ≡ elements) }
        ensures passes { IfOk result (λ made. (passes_of made.0.queue ≡ config.passes)
            × (limit_of made.0.queue ≡ config.limit)) }
        ensures first { IfOk result (λ made. (pass_view made.1).number ≡ 0) }
        ensures own { IfOk result (λ made. (pass_view made.1).own ≡ 0 ∷ []) }
        ensures nothing { IfOk result (λ made. (pass_view made.1).seen ≡ []) }
        ensures empty { IfOk result (λ made. ((pass_view made.1).handed ≡ [])
            × ((pass_view made.1).laid ≡ [])) }
        ensures alone { IfOk result (λ made. (pass_view made.1).alone ≡ true) }
        ensures ready { IfOk result (λ made. Rests (pass_view made.1) [] [] (pass_view made.1)) }
        ensures ample { IfOk result (λ made. ample_of made.0.queue ≡ true) }
    {
        let Some(client) = Pool::client(elements, config.slots, config.passes) else {
            return Err(MakeError::BadConfig);
        };
        let (queue, pass) = Queue::ample(alloc, config, CancelMode::Smart, client)?;
        Ok((Pool { queue }, pass))
    }

    // The client of a pool of so many elements, where so many slots have room for their cells.
    fn client(elements: u32, slots: u32, passes: u32) -> Option<PoolClient<T>>
        ensures none { IsNone result ↔ ((elements ≡ 0) ⊎ (4096 < elements)
            ⊎ (slots < 2 * passes + 2 + elements / 32 + 1)) }
        ensures size { IfSome result (λ client. elements_of client ≡ elements) }
    {
        if elements == 0 || elements > MOST_ELEMENTS {
            return None;
        }
        let least = 2 * u64::from(passes) + 2 + u64::from(elements / 32) + 1;
        if u64::from(slots) < least {
            return None;
        }
        Some(PoolClient::new(elements))
    }

    /// The queue that the pool stands on.
    pub fn queue(&self) -> &Queue<PoolClient<T>>
        ensures { result.now ≡ self.now.queue }
    {
        &self.queue
    }
}
