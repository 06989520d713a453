//! Rounds of calls of a semaphore, with one pass. Each answers whether it went as it should.

ghost use Rattle.std.specs.Prelude.{◌≡◌, false, IfSome, IsTrue};
ghost use Rattle.cqs_semaphore.specs.Callers.{IsIdle, IsHolder};

use cqs_rule::{Carries, Wait};
use cqs_semaphore::{Acquired, CancelAnswer, Permit, Polled, Released, SemPass, Semaphore};

// A permit is free: it is taken and given back.
#[inline(always)]
fn free_round(semaphore: &Semaphore, pass: &mut SemPass) -> bool
    requires idle { IsIdle semaphore.now pass.old }
    ensures idle { IsTrue result → IsIdle semaphore.now pass.new }
{
    match semaphore.acquire(pass) {
        Ok(Acquired::Now(permit)) => {
            matches!(semaphore.release(pass, permit), Ok(Released::Freed))
        }
        _ => false,
    }
}

// No permit is free: the pass waits in line, looks once, and leaves.
#[inline(always)]
fn leave_round(semaphore: &Semaphore, pass: &mut SemPass) -> bool
    requires idle { IsIdle semaphore.now pass.old }
    ensures idle { IsTrue result → IsIdle semaphore.now pass.new }
{
    let Ok(Acquired::Later(wait)) = semaphore.acquire(pass) else {
        return false;
    };
    let Polled::Pending(wait) = semaphore.poll(pass, wait) else {
        return false;
    };
    match semaphore.cancel(pass, wait) {
        CancelAnswer::Cancelled(None) => true,
        _ => false,
    }
}

/// The pass that has the permit waits for it, gives it back, and is served. No value moves.
#[inline(always)]
pub fn served_round<T: Carries + Send>(
    semaphore: &Semaphore<T>,
    pass: &mut SemPass<T>,
    permit: Permit,
) -> Option<Permit>
    requires bare { T.kept ≡ false }
    requires holder { IsHolder semaphore.now pass.old }
    ensures holder { IfSome result (λ _. IsHolder semaphore.now pass.new) }
{
    let Ok(Acquired::Later(wait)) = semaphore.acquire(pass) else {
        return None;
    };
    let Ok(Released::Sent(_)) = semaphore.release(pass, permit) else {
        return None;
    };
    match semaphore.poll(pass, wait) {
        Polled::Granted(permit) => Some(permit),
        Polled::Pending(_) => None,
    }
}

/// So many rounds in which a free permit is taken and given back.
#[inline(always)]
pub fn free_rounds(semaphore: &Semaphore, pass: &mut SemPass, count: u64) -> bool
    requires idle { IsIdle semaphore.now pass.old }
{
    for _ in 0..count {
        if !free_round(semaphore, pass) {
            return false;
        }
    }
    true
}

/// So many rounds in which the pass waits in line, looks once, and leaves.
#[inline(always)]
pub fn leave_rounds(semaphore: &Semaphore, pass: &mut SemPass, count: u64) -> bool
    requires idle { IsIdle semaphore.now pass.old }
    ensures idle { IsTrue result → IsIdle semaphore.now pass.new }
{
    for _ in 0..count {
        if !leave_round(semaphore, pass) {
            return false;
        }
    }
    true
}

/// So many rounds in which the pass waits in line, gives its permit to this wait, and looks.
#[inline(always)]
pub fn served_rounds<T: Carries + Send>(
    semaphore: &Semaphore<T>,
    pass: &mut SemPass<T>,
    permit: Permit,
    count: u64,
) -> bool
    requires bare { T.kept ≡ false }
    requires holder { IsHolder semaphore.now pass.old }
{
    let mut permit = permit;
    for _ in 0..count {
        match served_round(semaphore, pass, permit) {
            Some(next) => permit = next,
            None => return false,
        }
    }
    true
}

/// So many live waiters in line. Their tokens are let go, so they stand there for good.
#[inline(always)]
pub fn stand(semaphore: &Semaphore, pass: &mut SemPass, count: u64)
    requires idle { IsIdle semaphore.now pass.old }
    ensures idle { IsIdle semaphore.now pass.new }
{
    for _ in 0..count {
        let _ = semaphore.acquire(pass);
    }
}

/// So many waiters come, and their tokens are kept.
pub fn line_up(
    semaphore: &Semaphore,
    pass: &mut SemPass,
    waits: &mut Vec<Wait>,
    count: u64,
) -> anyhow::Result<()>
    requires idle { IsIdle semaphore.now pass.old }
{
    for _ in 0..count {
        if let Ok(Acquired::Later(wait)) = semaphore.acquire(pass) {
            waits.push(wait)?;
        }
    }
    Ok(())
}
