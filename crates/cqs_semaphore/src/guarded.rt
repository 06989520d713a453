//! A semaphore of one permit that carries a value.

ghost use Rattle.std.specs.Prelude.{◌≡◌, [], ◌∷◌, true, false, IfOk, IsErrOf};
ghost use mathlib.Core.Logic.{◌↔◌};
ghost use Rattle.cqs_rule_laws.specs.Configured.{is_config, is_small_config};
ghost use Rattle.cqs_rule.specs.Passes.{ample_of, pass_view, passes_of, limit_of};
ghost use Rattle.cqs_semaphore.specs.Calls.{Rests, IsMine, permits_in};

use crate::semaphore::{SemPass, Semaphore};
use cqs_rule::{CancelMode, Config, Kept, MakeError, Queue};
use cqs_semaphore_client::SemClient;
use std::alloc::Global;

impl<T: Send + Drop> Semaphore<Kept<T>> {
    /// A semaphore of one permit, which carries a value in the one slot, and its first pass. The
    /// slot is empty yet: `fill_slot` of its queue fills it before any other call. The slots of
    /// the configuration are for those who wait at once, as those of `Semaphore::new`.
    pub fn guarded(
        alloc: Global,
        config: Config,
    ) -> Result<(Semaphore<Kept<T>>, SemPass<Kept<T>>), MakeError>
        ensures bad_config { IsErrOf result MakeError.BadConfig ↔ (is_config config ≡ false) }
        ensures belongs { IfOk result (λ made. IsMine made.0 made.1) }
        ensures permits { IfOk result (λ made. permits_in made.0 ≡ 1) }
        ensures passes { IfOk result (λ made. (passes_of made.0.queue ≡ config.passes)
            × (limit_of made.0.queue ≡ config.limit)) }
        ensures first { IfOk result (λ made. (pass_view made.1).number ≡ 0) }
        ensures own { IfOk result (λ made. (pass_view made.1).own ≡ 0 ∷ []) }
        ensures nothing { IfOk result (λ made. (pass_view made.1).seen ≡ []) }
        ensures empty { IfOk result (λ made. ((pass_view made.1).handed ≡ [])
            × ((pass_view made.1).laid ≡ [])) }
        ensures alone { IfOk result (λ made. (pass_view made.1).alone ≡ true) }
        ensures ready { IfOk result (λ made. Rests (pass_view made.1) 0 [] (pass_view made.1)) }
        ensures slots { IfOk result (λ made. (pass_view made.1).slots ≡ config.slots) }
    {
        let client = SemClient::guarded();
        let (queue, pass) = Queue::new(alloc, config, CancelMode::Smart, client)?;
        Ok((Semaphore { queue }, pass))
    }

    /// The same on a table with slots for all segments that can ever be wanted, however few the
    /// configuration asks for. No call of it is crowded, and its memory grows with the limit.
    pub fn guarded_ample(
        alloc: Global,
        config: Config,
    ) -> Result<(Semaphore<Kept<T>>, SemPass<Kept<T>>), MakeError>
        ensures bad_config { IsErrOf result MakeError.BadConfig ↔ (is_small_config config ≡ false) }
        ensures belongs { IfOk result (λ made. IsMine made.0 made.1) }
        ensures permits { IfOk result (λ made. permits_in made.0 ≡ 1) }
        ensures passes { IfOk result (λ made. (passes_of made.0.queue ≡ config.passes)
            × (limit_of made.0.queue ≡ config.limit)) }
        ensures first { IfOk result (λ made. (pass_view made.1).number ≡ 0) }
        ensures own { IfOk result (λ made. (pass_view made.1).own ≡ 0 ∷ []) }
        ensures nothing { IfOk result (λ made. (pass_view made.1).seen ≡ []) }
        ensures empty { IfOk result (λ made. ((pass_view made.1).handed ≡ [])
            × ((pass_view made.1).laid ≡ [])) }
        ensures alone { IfOk result (λ made. (pass_view made.1).alone ≡ true) }
        ensures ready { IfOk result (λ made. Rests (pass_view made.1) 0 [] (pass_view made.1)) }
        ensures ample { IfOk result (λ made. ample_of made.0.queue ≡ true) }
    {
        let client = SemClient::guarded();
        let (queue, pass) = Queue::ample(alloc, config, CancelMode::Smart, client)?;
        Ok((Semaphore { queue }, pass))
    }
}
