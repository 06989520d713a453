//! How a primitive is made whose passes are called by number.

ghost use Rattle.std.specs.Prelude.{◌≡◌, ◌⊎◌, ◌<◌, ◌≤◌, ◌+◌, ◌*◌, ◌/◌, false, IfErr, IfOk, IsErrOf, replicate};
ghost use mathlib.Core.Logic.{◌↔◌};
ghost use Rattle.cqs_rule_laws.specs.Configured.{is_config};
ghost use Rattle.cqs_c_numbers.specs.Callers.{StandsAt};
ghost use Rattle.cqs_c_numbers.specs.Making.{HasOpened, IsBarrierOf, IsLatchOf, IsOpen, IsPoolOf, IsSemaphoreOf, IsSyncSemaphoreOf};
ghost use Rattle.cqs_c_numbers.specs.Numbered.{primitive_in};

use crate::caller::Caller;
use crate::marks::{NOBODY, Slots};
use crate::numbered::Numbered;
use crate::primitive::Primitive;
use atomic_table::Table;
use cqs_barrier::Barrier;
use cqs_c_callers::{Answer, PoolCaller, SemaphoreCaller};
use cqs_c_latch_callers::{BarrierCaller, LatchCaller};
use cqs_c_sync_callers::SyncSemaphoreCaller;
use cqs_latch::Latch;
use cqs_pool::Pool;
use cqs_rule::{CancelMode, Config, MakeError};
use cqs_semaphore::Semaphore;
use cqs_sync_semaphore::SyncSemaphore;
use std::alloc::{AllocError, Global};

/// For so many waits of one pass there may be room.
const MOST_WAITS: u32 = 1_048_576;

// The marks, under none of which anybody has a number.
fn marks(alloc: Global, passes: u32) -> Result<Vec<u64>, AllocError>
    requires { passes ≤ 32 }
    ensures { IfOk result (λ marks. marks.items ≡ replicate (16 * passes + 16) 2) }
{
    Vec::from_elem(alloc, NOBODY, 16 * passes as usize + 16)
}

#[tactic(auto, using(crate::proofs::MarkSteps::opens))]
fn slots(alloc: Global, passes: u32, primitive: &Primitive) -> Result<Slots, AllocError>
    requires { passes ≤ 32 }
    ensures key { IfOk result (λ table. table.shared.key ≡ primitive.now) }
    ensures words { IfOk result (λ table. table.shared.table_id.words ≡ 16 * passes + 16) }
    ensures slots { IfOk result (λ table. table.shared.table_id.slots ≡ passes) }
{
    let marks = marks(alloc, passes)?;
    let (table, _hand) = Table::vacant(alloc, marks.as_slice(), passes as usize, primitive)?;
    Ok(table)
}

impl Numbered {
    /// A semaphore with all its permits free, and its first pass, under the number 0. Each pass has
    /// room for so many waits.
    pub fn semaphore(
        alloc: Global,
        permits: u32,
        config: Config,
        waits: u32,
    ) -> Result<Numbered, MakeError>
        ensures bad_config { IsErrOf result MakeError.BadConfig
            ↔ ((permits ≡ 0) ⊎ (1048576 < permits) ⊎ (is_config config ≡ false)
            ⊎ (1048576 < waits)) }
        ensures made { IfOk result (λ made. IsSemaphoreOf permits (primitive_in made)) }
        ensures open { IfOk result (IsOpen config 0 waits 0) }
    {
        if waits > MOST_WAITS || !config.is_in_range() {
            return Err(MakeError::BadConfig);
        }
        let (semaphore, pass) = Semaphore::unparked(alloc, permits, config)?;
        let room = Vec::with_capacity(alloc, waits as usize)?;
        let first = SemaphoreCaller::new(&semaphore, pass, room);
        let primitive = Primitive::Semaphore(semaphore);
        Numbered::open(
            alloc,
            primitive,
            Caller::Semaphore(first),
            config.passes,
            waits,
        )
    }

    /// A pool of so many elements, all of them free, and its first pass, under the number 0. Each
    /// pass has room for so many waits, and for one element more than there are.
    pub fn pool(alloc: Global, size: u32, config: Config, waits: u32) -> Result<Numbered, MakeError>
        ensures bad_config { IsErrOf result MakeError.BadConfig
            ↔ ((size ≡ 0) ⊎ (4096 < size)
            ⊎ (config.slots < 2 * config.passes + 2 + size / 32 + 1)
            ⊎ (is_config config ≡ false) ⊎ (1048576 < waits)) }
        ensures made { IfOk result (λ made. IsPoolOf size (primitive_in made)) }
        ensures open { IfOk result (IsOpen config 0 waits (size + 1)) }
    {
        if waits > MOST_WAITS || !config.is_in_range() {
            return Err(MakeError::BadConfig);
        }
        let (pool, pass) = Pool::unparked(alloc, size, config)?;
        let room = Vec::with_capacity(alloc, waits as usize)?;
        let elements = Vec::with_capacity(alloc, size as usize + 1)?;
        let first = PoolCaller::new(&pool, pass, room, elements);
        let primitive = Primitive::Pool(pool);
        Numbered::open(alloc, primitive, Caller::Pool(first), config.passes, waits)
    }

    /// A latch that is to be counted down so often, whose waits leave in this mode, and its first
    /// pass, under the number 0. Each pass has room for so many waits.
    pub fn latch(
        alloc: Global,
        count: u32,
        mode: CancelMode,
        config: Config,
        waits: u32,
    ) -> Result<Numbered, MakeError>
        ensures bad_config { IsErrOf result MakeError.BadConfig
            ↔ ((1048576 < count) ⊎ (4294967232 < config.limit) ⊎ (is_config config ≡ false)
            ⊎ (1048576 < waits)) }
        ensures made { IfOk result (λ made. IsLatchOf count mode (primitive_in made)) }
        ensures open { IfOk result (IsOpen config 0 waits 0) }
    {
        if waits > MOST_WAITS || !config.is_in_range() {
            return Err(MakeError::BadConfig);
        }
        let (latch, pass) = Latch::unparked(alloc, count, mode, config)?;
        let room = Vec::with_capacity(alloc, waits as usize)?;
        let first = LatchCaller::new(&latch, pass, room);
        let primitive = Primitive::Latch(latch);
        Numbered::open(alloc, primitive, Caller::Latch(first), config.passes, waits)
    }

    /// A barrier of so many parties, none of which has arrived, and its first pass, under the
    /// number 0, which holds all of them. Each pass has room for so many waits.
    pub fn barrier(
        alloc: Global,
        parties: u32,
        config: Config,
        waits: u32,
    ) -> Result<Numbered, MakeError>
        ensures bad_config { IsErrOf result MakeError.BadConfig
            ↔ ((parties ≡ 0) ⊎ (32 < parties) ⊎ (is_config config ≡ false)
            ⊎ (1048576 < waits)) }
        ensures made { IfOk result (λ made. IsBarrierOf parties (primitive_in made)) }
        ensures open { IfOk result (IsOpen config parties waits 0) }
    {
        if waits > MOST_WAITS || !config.is_in_range() {
            return Err(MakeError::BadConfig);
        }
        let (barrier, pass) = Barrier::unparked(alloc, parties, config)?;
        let room = Vec::with_capacity(alloc, waits as usize)?;
        let first = BarrierCaller::new(&barrier, pass, room);
        let primitive = Primitive::Barrier(barrier);
        Numbered::open(
            alloc,
            primitive,
            Caller::Barrier(first),
            config.passes,
            waits,
        )
    }

    /// A synchronous semaphore with all its permits free, whose release looks so often at a permit
    /// that it holds out, and its first pass, under the number 0. Each pass has room for so many
    /// waits.
    pub fn sync_semaphore(
        alloc: Global,
        permits: u32,
        looks: u32,
        config: Config,
        waits: u32,
    ) -> Result<Numbered, MakeError>
        ensures bad_config { IsErrOf result MakeError.BadConfig
            ↔ ((permits ≡ 0) ⊎ (1048576 < permits) ⊎ (1024 < looks) ⊎ (is_config config ≡ false)
            ⊎ (1048576 < waits)) }
        ensures made { IfOk result (λ made. IsSyncSemaphoreOf permits looks (primitive_in made)) }
        ensures open { IfOk result (IsOpen config 0 waits 0) }
    {
        if waits > MOST_WAITS || !config.is_in_range() {
            return Err(MakeError::BadConfig);
        }
        let (semaphore, pass) = SyncSemaphore::unparked(alloc, permits, config, looks)?;
        let room = Vec::with_capacity(alloc, waits as usize)?;
        let first = SyncSemaphoreCaller::new(&semaphore, pass, room);
        let primitive = Primitive::SyncSemaphore(semaphore);
        Numbered::open(
            alloc,
            primitive,
            Caller::SyncSemaphore(first),
            config.passes,
            waits,
        )
    }

    // Opens the table of a primitive, with its first caller in it.
    fn open(
        alloc: Global,
        primitive: Primitive,
        first: Caller,
        passes: u32,
        waits: u32,
    ) -> Result<Numbered, MakeError>
        requires stands { StandsAt primitive first }
        requires few { passes ≤ 32 }
        ensures opened { IfOk result (HasOpened primitive first passes waits) }
        ensures memory { IfErr result (λ error. error ≡ MakeError.Memory) }
    {
        let table = slots(alloc, passes, &primitive)?;
        let made = Numbered {
            primitive,
            table,
            passes,
            room: waits,
            alloc,
        };
        match made.seat(first) {
            Answer::Made(_) => Ok(made),
            _ => Err(MakeError::Memory),
        }
    }
}
