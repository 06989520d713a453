//! The latch, and how it is made.

ghost use Rattle.std.specs.Prelude.{◌≡◌, ◌⊎◌, ◌<◌, [], ◌∷◌, true, false, IfOk, IsErrOf};
ghost use mathlib.Core.Logic.{◌↔◌};
ghost use Rattle.cqs_latch.specs.LatchMade.{count_of, mode_of};
ghost use Rattle.cqs_rule_laws.specs.Configured.{is_config, is_small_config};
ghost use Rattle.cqs_rule.specs.Passes.{ample_of, pass_view, passes_of, limit_of, client_of};

use crate::client::LatchClient;
use cqs_rule::{CancelMode, Carries, Config, MakeError, Pass, Queue, Unparked};
use std::alloc::Global;

/// What a caller makes its calls with.
pub type LatchPass<T = ()> = Pass<LatchClient<T>>;

/// The most that a latch may be made to be counted down.
const MOST_COUNTS: u32 = 1_048_576;

/// The largest limit: who opens the latch owes a resumption for each who came to wait, as many as
/// 32 bits count.
const MOST_LIMIT: u64 = 4_294_967_232;

/// A count-down latch: it opens once it was counted down as often as it was made for, and resumes
/// all who wait. `T` says whether they may park.
#[derive(Drop)]
pub struct Latch<T: Carries = ()> {
    pub(crate) queue: Queue<LatchClient<T>>,
    pub(crate) mode: CancelMode,
    pub ghost mode_is: { mode_of (client_of queue) ≡ mode },
}

impl Latch {
    ghost use Rattle.cqs_latch.specs.Calls.{IsMine, Rests};

    /// A latch that is to be counted down so often, at most 1,048,576 times, whose waits leave in
    /// this mode, and its first pass, which has number 0 and has seen nothing. One of 0 is open.
    /// The limit is at most 4,294,967,232. The slots are used again: some
    /// `waiters / 32 + 2 * passes + 2` are for so many who wait at once.
    pub fn new(
        alloc: Global,
        count: u32,
        mode: CancelMode,
        config: Config,
    ) -> Result<(Latch, LatchPass), MakeError>
        ensures bad_config { IsErrOf result MakeError.BadConfig
            ↔ ((1048576 < count) ⊎ (4294967232 < config.limit) ⊎ (is_config config ≡ false)) }
        ensures belongs { IfOk result (λ made. IsMine made.0 made.1) }
        ensures count { IfOk result (λ made. count_of (client_of made.0.queue) ≡ count) }
        ensures mode { IfOk result (λ made. mode_of (client_of made.0.queue) ≡ mode) }
        ensures passes { IfOk result (λ made. (passes_of made.0.queue ≡ config.passes)
            × (limit_of made.0.queue ≡ config.limit)) }
        ensures first { IfOk result (λ made. (pass_view made.1).number ≡ 0) }
        ensures own { IfOk result (λ made. (pass_view made.1).own ≡ 0 ∷ []) }
        ensures nothing { IfOk result (λ made. (pass_view made.1).seen ≡ []) }
        ensures alone { IfOk result (λ made. (pass_view made.1).alone ≡ true) }
        ensures ready { IfOk result (λ made. Rests [] (pass_view made.1)) }
        ensures slots { IfOk result (λ made. (pass_view made.1).slots ≡ config.slots) }
    {
        Latch::make(alloc, count, mode, config)
    }

    /// The same on a table with slots for all segments that can ever be wanted, however few
    /// `config` asks for: no call of it is crowded, and its memory grows with the limit.
    pub fn ample(
        alloc: Global,
        count: u32,
        mode: CancelMode,
        config: Config,
    ) -> Result<(Latch, LatchPass), MakeError>
        ensures bad_config { IsErrOf result MakeError.BadConfig
            ↔ ((1048576 < count) ⊎ (is_small_config config ≡ false)) }
        ensures belongs { IfOk result (λ made. IsMine made.0 made.1) }
        ensures count { IfOk result (λ made. count_of (client_of made.0.queue) ≡ count) }
        ensures mode { IfOk result (λ made. mode_of (client_of made.0.queue) ≡ mode) }
        ensures passes { IfOk result (λ made. (passes_of made.0.queue ≡ config.passes)
            × (limit_of made.0.queue ≡ config.limit)) }
        ensures first { IfOk result (λ made. (pass_view made.1).number ≡ 0) }
        ensures own { IfOk result (λ made. (pass_view made.1).own ≡ 0 ∷ []) }
        ensures nothing { IfOk result (λ made. (pass_view made.1).seen ≡ []) }
        ensures alone { IfOk result (λ made. (pass_view made.1).alone ≡ true) }
        ensures ready { IfOk result (λ made. Rests [] (pass_view made.1)) }
        ensures ample { IfOk result (λ made. ample_of made.0.queue ≡ true) }
    {
        Latch::make_ample(alloc, count, mode, config)
    }
}

impl Latch<Unparked> {
    ghost use Rattle.cqs_latch.specs.Calls.{IsMine, Rests};

    /// The same as by `new`, for callers who never park: each looks at its wait when it likes. Such
    /// a latch wakes nobody, and so it may stand in a static library.
    pub fn unparked(
        alloc: Global,
        count: u32,
        mode: CancelMode,
        config: Config,
    ) -> Result<(Latch<Unparked>, LatchPass<Unparked>), MakeError>
        ensures bad_config { IsErrOf result MakeError.BadConfig
            ↔ ((1048576 < count) ⊎ (4294967232 < config.limit) ⊎ (is_config config ≡ false)) }
        ensures belongs { IfOk result (λ made. IsMine made.0 made.1) }
        ensures count { IfOk result (λ made. count_of (client_of made.0.queue) ≡ count) }
        ensures mode { IfOk result (λ made. mode_of (client_of made.0.queue) ≡ mode) }
        ensures passes { IfOk result (λ made. (passes_of made.0.queue ≡ config.passes)
            × (limit_of made.0.queue ≡ config.limit)) }
        ensures first { IfOk result (λ made. (pass_view made.1).number ≡ 0) }
        ensures own { IfOk result (λ made. (pass_view made.1).own ≡ 0 ∷ []) }
        ensures nothing { IfOk result (λ made. (pass_view made.1).seen ≡ []) }
        ensures alone { IfOk result (λ made. (pass_view made.1).alone ≡ true) }
        ensures ready { IfOk result (λ made. Rests [] (pass_view made.1)) }
        ensures slots { IfOk result (λ made. (pass_view made.1).slots ≡ config.slots) }
    {
        Latch::make(alloc, count, mode, config)
    }
}

impl<T: Carries + Send> Latch<T> {
    ghost use Rattle.cqs_latch.specs.Calls.{IsMine, Rests};

    fn make(
        alloc: Global,
        count: u32,
        mode: CancelMode,
        config: Config,
    ) -> Result<(Latch<T>, LatchPass<T>), MakeError>
        ensures bad_config { IsErrOf result MakeError.BadConfig
            ↔ ((1048576 < count) ⊎ (4294967232 < config.limit) ⊎ (is_config config ≡ false)) }
        ensures belongs { IfOk result (λ made. IsMine made.0 made.1) }
        ensures count { IfOk result (λ made. count_of (client_of made.0.queue) ≡ count) }
        ensures mode { IfOk result (λ made. mode_of (client_of made.0.queue) ≡ mode) }
        ensures passes { IfOk result (λ made. (passes_of made.0.queue ≡ config.passes)
            × (limit_of made.0.queue ≡ config.limit)) }
        ensures first { IfOk result (λ made. (pass_view made.1).number ≡ 0) }
        ensures own { IfOk result (λ made. (pass_view made.1).own ≡ 0 ∷ []) }
        ensures nothing { IfOk result (λ made. (pass_view made.1).seen ≡ []) }
        ensures alone { IfOk result (λ made. (pass_view made.1).alone ≡ true) }
        ensures ready { IfOk result (λ made. Rests [] (pass_view made.1)) }
        ensures slots { IfOk result (λ made. (pass_view made.1).slots ≡ config.slots) }
    {
        if count > MOST_COUNTS || config.limit > MOST_LIMIT {
            return Err(MakeError::BadConfig);
        }
        let client = LatchClient::new(count, mode);
        let (queue, pass) = Queue::new(alloc, config, mode, client)?;
        Ok((Latch { queue, mode }, pass))
    }

    // The same on an ample table.
    fn make_ample(
        alloc: Global,
        count: u32,
        mode: CancelMode,
        config: Config,
    ) -> Result<(Latch<T>, LatchPass<T>), MakeError>
        ensures bad_config { IsErrOf result MakeError.BadConfig
            ↔ ((1048576 < count) ⊎ (is_small_config config ≡ false)) }
        ensures belongs { IfOk result (λ made. IsMine made.0 made.1) }
        ensures count { IfOk result (λ made. count_of (client_of made.0.queue) ≡ count) }
        ensures mode { IfOk result (λ made. mode_of (client_of made.0.queue) ≡ mode) }
        ensures passes { IfOk result (λ made. (passes_of made.0.queue ≡ config.passes)
            × (limit_of made.0.queue ≡ config.limit)) }
        ensures first { IfOk result (λ made. (pass_view made.1).number ≡ 0) }
        ensures own { IfOk result (λ made. (pass_view made.1).own ≡ 0 ∷ []) }
        ensures nothing { IfOk result (λ made. (pass_view made.1).seen ≡ []) }
        ensures alone { IfOk result (λ made. (pass_view made.1).alone ≡ true) }
        ensures ready { IfOk result (λ made. Rests [] (pass_view made.1)) }
        ensures ample { IfOk result (λ made. ample_of made.0.queue ≡ true) }
    {
        if count > MOST_COUNTS {
            return Err(MakeError::BadConfig);
        }
        let client = LatchClient::new(count, mode);
        let (queue, pass) = Queue::ample(alloc, config, mode, client)?;
        Ok((Latch { queue, mode }, pass))
    }

    /// The queue that the latch stands on.
    pub fn queue(&self) -> &Queue<LatchClient<T>>
        ensures { result.now ≡ self.now.queue }
    {
        &self.queue
    }
}
