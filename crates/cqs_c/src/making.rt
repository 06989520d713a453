//! How C gets a primitive.

ghost use Rattle.std.specs.Prelude.{◌≡◌, ◌≢◌, ◌⊎◌, ◌<◌, ◌≤◌, IfErr, IfOk};
ghost use Rattle.cqs_c.specs.Making.{IsOfKind, config_of as told_config, kind_at, wanted_slots};

use cqs_c_numbers::Numbered;
use cqs_rule::{CancelMode, Config, MakeError};
use std::alloc::Global;

/// `cqs_new` had no memory.
const MEMORY: u32 = 11;

/// A number is out of range.
const BAD_CONFIG: u32 = 13;

/// So many slots a primitive has at most.
const MOST_SLOTS: u64 = 65_535;

/// What may be made.
enum Kind {
    Semaphore,
    Pool,
    Latch(CancelMode),
    Barrier,
    SyncSemaphore,
}

fn kind_of(kind: u32) -> Option<Kind>
    ensures { result ≡ kind_at kind }
{
    match kind {
        0 => Some(Kind::Semaphore),
        1 => Some(Kind::Pool),
        2 => Some(Kind::Latch(CancelMode::Smart)),
        3 => Some(Kind::Latch(CancelMode::Simple)),
        4 => Some(Kind::Barrier),
        5 => Some(Kind::SyncSemaphore),
        _ => None,
    }
}

// Nobody has to think of slots: there are enough for as many who wait at once as all passes have
// room for, if they came one after the other. A pool's elements need room for their cells. Where a
// party could find no slot, all others would wait for it for ever; so each may keep one.
fn slots_wanted(kind: u32, size: u32, passes: u32, waits: u32) -> u64
    ensures { result ≡ wanted_slots kind size passes waits }
{
    let (size, passes, waits) = (u64::from(size), u64::from(passes), u64::from(waits));
    let more = if kind == 1 {
        size / 32 + 1
    } else if kind == 4 {
        size
    } else {
        0
    };
    waits * passes / 32 + 2 * passes + 2 + more
}

fn config_of(kind: u32, size: u32, passes: u32, limit: u64, waits: u32) -> Config
    ensures { result ≡ told_config kind size passes limit waits }
{
    let wanted = slots_wanted(kind, size, passes, waits);
    let slots = if wanted <= MOST_SLOTS {
        wanted as u32
    } else {
        65_535
    };
    Config {
        passes,
        limit,
        slots,
    }
}

// The primitive of this kind: a semaphore of so many permits, a pool of so many elements, a latch
// that is to be counted down so often, a barrier of so many parties, or a synchronous semaphore,
// which alone has looks.
fn make(
    alloc: Global,
    kind: u32,
    size: u32,
    config: Config,
    waits: u32,
    looks: u32,
) -> Result<Numbered, MakeError>
    ensures made { IfOk result (IsOfKind (kind_at kind) size config waits looks) }
{
    match kind_of(kind) {
        Some(Kind::Semaphore) => Numbered::semaphore(alloc, size, config, waits),
        Some(Kind::Pool) => Numbered::pool(alloc, size, config, waits),
        Some(Kind::Latch(mode)) => Numbered::latch(alloc, size, mode, config, waits),
        Some(Kind::Barrier) => Numbered::barrier(alloc, size, config, waits),
        Some(Kind::SyncSemaphore) => Numbered::sync_semaphore(alloc, size, looks, config, waits),
        None => Err(MakeError::BadConfig),
    }
}

// The same in a block of its own, or the number under which C is told why there is none.
fn make_boxed(
    alloc: Global,
    kind: u32,
    size: u32,
    passes: u32,
    limit: u64,
    waits: u32,
    looks: u32,
) -> Result<Box<Numbered>, u32>
    ensures made { IfOk result (λ made. IsOfKind (kind_at kind) size
        (told_config kind size passes limit waits) waits looks made.value) }
    ensures refused { IfErr result (λ status. (status ≡ 11) ⊎ (status ≡ 13)) }
    ensures bad_config { 32 < passes → result ≡ Err 13 }
{
    if passes > 32 {
        return Err(BAD_CONFIG);
    }
    let config = config_of(kind, size, passes, limit, waits);
    let made = match make(alloc, kind, size, config, waits, looks) {
        Ok(made) => made,
        Err(MakeError::BadConfig) => return Err(BAD_CONFIG),
        Err(MakeError::Memory) => return Err(MEMORY),
    };
    match Box::new(alloc, made) {
        Ok(made) => Ok(made),
        Err(_) => Err(MEMORY),
    }
}

/// A primitive of this kind with its first pass, which has number 0, written through `out`. Each
/// pass has room for so many waits. A synchronous semaphore's release looks so often at a permit
/// that it holds out; no other kind reads `looks`.
#[unsafe(no_mangle)]
pub extern "C" fn cqs_new(
    alloc: Global,
    kind: u32,
    size: u32,
    passes: u32,
    limit: u64,
    waits: u32,
    looks: u32,
    out: &mut *mut u8,
) -> u32
    ensures told { (result ≡ 0) ⊎ (result ≡ 11) ⊎ (result ≡ 13) }
    ensures bad_config { 32 < passes → result ≡ 13 }
    ensures unchanged { result ≢ 0 → out.new ≡ out.old }
{
    match make_boxed(alloc, kind, size, passes, limit, waits, looks) {
        Ok(made) => {
            *out = Box::into_raw(made) as *mut u8;
            0
        }
        Err(status) => status,
    }
}
