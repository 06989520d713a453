//! The pool of values, and how it is made.

ghost use Rattle.std.specs.Prelude.{◌≡◌, ◌⊎◌, ◌+◌, ◌*◌, ◌/◌, ◌<◌, ◌≤◌, [], true, false, IfOk, IfErr, length, vec_len};
ghost use mathlib.Core.Logic.{◌↔◌};
ghost use Rattle.cqs_rule_laws.specs.Configured.{is_config, is_small_config};
ghost use Rattle.cqs_rule.specs.Passes.{ample_of, pass_view};
ghost use Rattle.cqs_rule_laws.specs.SlotSteps.{Swapped};
ghost use Rattle.cqs_pool.specs.Calls.{IsMine, size_of};
ghost use Rattle.cqs_pool_values.specs.Pools.{Belongs, Opens, HoldsEach, BeginsEach, IsBadConfig};

use cqs_pool::{Pool, PoolPass};
use cqs_rule::{Config, Kept, MakeError};
use std::alloc::Global;

/// What a caller makes its calls with.
pub type ValuePass<T> = PoolPass<Kept<T>>;

/// The most elements that a pool may be made with.
const MOST_ELEMENTS: usize = 4096;

/// A blocking pool of values.
#[derive(Drop)]
pub struct ValuePool<T: Drop> {
    pub(crate) pool: Pool<Kept<T>>,
}

impl<T: Send + Drop> ValuePool<T> {
    /// A pool of these values, all of them free, and its first pass, which has number 0 and has
    /// seen nothing. The value at a place belongs to the element of that number. There are from 1
    /// to 4,096, and `slots` has room for their cells. Where no pool is made, the values come back.
    /// `slots` says for how many waiters at once: some `(values + waiters) / 32 + 2 * passes + 3`
    /// are wanted.
    pub fn new(
        alloc: Global,
        values: Vec<T>,
        config: Config,
    ) -> Result<(ValuePool<T>, ValuePass<T>), (Vec<T>, MakeError)>
        ensures bad_config { IsBadConfig result
            ↔ ((length values.items ≡ 0) ⊎ (4096 < length values.items)
            ⊎ (config.slots < 2 * config.passes + 2 + length values.items / 32 + 1)
            ⊎ (is_config config ≡ false)) }
        ensures back { IfErr result (λ refused. refused.0 ≡ values) }
        ensures belongs { IfOk result (λ made. Belongs made.0 made.1) }
        ensures opens { IfOk result (λ made. Opens values.items config made.0 made.1) }
        ensures slots { IfOk result (λ made. (pass_view made.1).slots ≡ config.slots) }
    {
        if values.len() > MOST_ELEMENTS {
            return Err((values, MakeError::BadConfig));
        }
        let (pool, mut pass) = match Pool::with_slots(alloc, values.len() as u32, config) {
            Ok(made) => made,
            Err(error) => return Err((values, error)),
        };
        fill(&pool, &mut pass, values);
        Ok((ValuePool { pool }, pass))
    }

    /// The same on a table with slots for all segments that can ever be wanted, however few
    /// `config` asks for: no call of it is crowded, and its memory grows with the limit.
    pub fn ample(
        alloc: Global,
        values: Vec<T>,
        config: Config,
    ) -> Result<(ValuePool<T>, ValuePass<T>), (Vec<T>, MakeError)>
        ensures bad_config { IsBadConfig result
            ↔ ((length values.items ≡ 0) ⊎ (4096 < length values.items)
            ⊎ (config.slots < 2 * config.passes + 2 + length values.items / 32 + 1)
            ⊎ (is_small_config config ≡ false)) }
        ensures back { IfErr result (λ refused. refused.0 ≡ values) }
        ensures belongs { IfOk result (λ made. Belongs made.0 made.1) }
        ensures opens { IfOk result (λ made. Opens values.items config made.0 made.1) }
        ensures ample { IfOk result (λ made. ample_of made.0.pool.queue ≡ true) }
    {
        if values.len() > MOST_ELEMENTS {
            return Err((values, MakeError::BadConfig));
        }
        let (pool, mut pass) = match Pool::with_slots_ample(alloc, values.len() as u32, config) {
            Ok(made) => made,
            Err(refused) => return Err((values, refused)),
        };
        fill(&pool, &mut pass, values);
        Ok((ValuePool { pool }, pass))
    }
}

// Fills the slots, one after the other.
fn fill<T: Send + Drop>(pool: &Pool<Kept<T>>, pass: &mut PoolPass<Kept<T>>, values: Vec<T>)
    requires belongs { IsMine pool.now pass.old }
    requires size { size_of pool.now ≡ length values.items }
    requires few { length values.items ≤ 4096 }
    requires alone { (pass_view pass.old).alone ≡ true }
    requires nothing { (pass_view pass.old).seen ≡ [] }
    requires empty { (pass_view pass.old).handed ≡ [] }
    requires bare { (pass_view pass.old).laid ≡ [] }
    ensures belongs { IsMine pool.now pass.new }
    ensures swapped { Swapped [] (pass_view pass.old) (pass_view pass.new) }
    ensures filled { HoldsEach values.items (pass_view pass.new).handed }
    ensures begins { BeginsEach values.items (pass_view pass.new).handed }
{
    let mut slot: u32 = 0;
    for value in values {
        pool.queue().fill_slot(pass, slot, Kept { value });
        slot += 1;
    }
}
