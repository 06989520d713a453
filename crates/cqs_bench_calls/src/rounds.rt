//! Rounds of the running queue: a semaphore of one permit on its words, with one pass. Each call is
//! compiled into the loop of its rounds, as in the plain code.

ghost use Rattle.std.specs.Prelude.{◌≡◌, ◌<◌, true, false, IfSome, IsTrue};
ghost use Rattle.cqs_core.specs.declared.doings.Doing.TheVariants.{Idle};
ghost use Rattle.cqs_rule.specs.Passes.{ample_of, client_of, pass_view, limit_of, IsOf};
ghost use Rattle.cqs_semaphore_client.specs.SemaphoreMade.{sync_of};
ghost use Rattle.cqs_bench_calls.specs.Waits.{KeepsWaits, HasItsWait};

use cqs_cancel::{Left, cancel};
use cqs_cell::look_for_grant;
use cqs_resume::{Resumed, resume};
use cqs_rule::{Counts, Pass, Queue, SUSPENDS_WORD, Wait};
use cqs_semaphore_client::{SemClient, give_permit, take_permit};
use cqs_suspend::{Suspended, suspend};

/// From this suspend counter on no number is drawn.
pub const LIMIT: u64 = 1 << 20;

// Takes a permit, or waits in line for one.
#[inline(always)]
fn acquire(queue: &Queue<SemClient>, pass: &mut Pass<SemClient>) -> Option<Wait>
    requires belongs { IsOf queue.now pass.old }
    requires plain { sync_of (client_of queue.now) ≡ false }
    requires ample { ample_of queue.now ≡ true }
    requires idle { (pass_view pass.old).facts.doing ≡ Idle }
    requires may_draw { (pass_view pass.old).facts.may_draw ≡ true }
    ensures belongs { IsOf queue.now pass.new }
    ensures idle { (pass_view pass.new).facts.doing ≡ Idle }
    ensures waits { IfSome result (λ wait. HasItsWait wait pass.new) }
{
    if take_permit(queue, pass).is_above_zero() {
        return None;
    }
    match suspend(queue, pass) {
        Suspended::Waits(wait) => Some(wait),
        Suspended::Took { .. } => None,
    }
}

// Gives the permit that the pass holds, if it has one, to the first of the line, or makes it
// free. It answers whether that was done: where more waiters have left than one call passes
// over, the pass still owes it.
#[inline(always)]
fn release(queue: &Queue<SemClient>, pass: &mut Pass<SemClient>) -> bool
    requires belongs { IsOf queue.now pass.old }
    requires plain { sync_of (client_of queue.now) ≡ false }
    requires ample { ample_of queue.now ≡ true }
    requires idle { (pass_view pass.old).facts.doing ≡ Idle }
    ensures belongs { IsOf queue.now pass.new }
    ensures idle { IsTrue result → (pass_view pass.new).facts.doing ≡ Idle }
    ensures waits { KeepsWaits pass.old pass.new }
{
    if pass.held() == 0 {
        return true;
    }
    if !give_permit(queue, pass).is_below_zero() {
        return true;
    }
    match resume(queue, pass, 0) {
        Resumed::Served(_) | Resumed::Left(_) | Resumed::Refused(_) => true,
        Resumed::Under(_) => false,
    }
}

// A permit is free: it is taken and given back. It answers whether rounds go on.
fn free_round(queue: &Queue<SemClient>, pass: &mut Pass<SemClient>) -> bool
    requires belongs { IsOf queue.now pass.old }
    requires plain { sync_of (client_of queue.now) ≡ false }
    requires ample { ample_of queue.now ≡ true }
    requires limit { limit_of queue.now ≡ 1048576 }
    requires idle { (pass_view pass.old).facts.doing ≡ Idle }
    ensures belongs { IsOf queue.now pass.new }
    ensures idle { IsTrue result → (pass_view pass.new).facts.doing ≡ Idle }
{
    if queue.load_table::<Counts>(pass, SUSPENDS_WORD) >= LIMIT {
        return false;
    }
    if acquire(queue, pass).is_some() {
        return false;
    }
    release(queue, pass)
}

// The pass that holds the one permit waits for it, gives it back, and is served. It
// answers whether rounds go on.
fn pair_round(queue: &Queue<SemClient>, pass: &mut Pass<SemClient>) -> bool
    requires belongs { IsOf queue.now pass.old }
    requires plain { sync_of (client_of queue.now) ≡ false }
    requires ample { ample_of queue.now ≡ true }
    requires limit { limit_of queue.now ≡ 1048576 }
    requires idle { (pass_view pass.old).facts.doing ≡ Idle }
    ensures belongs { IsOf queue.now pass.new }
    ensures idle { IsTrue result → (pass_view pass.new).facts.doing ≡ Idle }
{
    if queue.load_table::<Counts>(pass, SUSPENDS_WORD) >= LIMIT {
        return false;
    }
    let Some(wait) = acquire(queue, pass) else {
        return true;
    };
    if !release(queue, pass) {
        return false;
    }
    let at = queue.spend_wait(pass, wait);
    look_for_grant(queue, pass, at);
    true
}

// The pass that holds the one permit waits for it, and leaves the line again. It answers whether
// rounds go on.
fn leave_round(queue: &Queue<SemClient>, pass: &mut Pass<SemClient>) -> bool
    requires belongs { IsOf queue.now pass.old }
    requires plain { sync_of (client_of queue.now) ≡ false }
    requires ample { ample_of queue.now ≡ true }
    requires limit { limit_of queue.now ≡ 1048576 }
    requires idle { (pass_view pass.old).facts.doing ≡ Idle }
    ensures belongs { IsOf queue.now pass.new }
    ensures idle { IsTrue result → (pass_view pass.new).facts.doing ≡ Idle }
{
    if queue.load_table::<Counts>(pass, SUSPENDS_WORD) >= LIMIT {
        return false;
    }
    let Some(wait) = acquire(queue, pass) else {
        return true;
    };
    leave(queue, pass, wait)
}

// Leaves the line, and answers whether nothing is owed by that.
#[inline(always)]
fn leave(queue: &Queue<SemClient>, pass: &mut Pass<SemClient>, wait: Wait) -> bool
    requires belongs { IsOf queue.now pass.old }
    requires idle { (pass_view pass.old).facts.doing ≡ Idle }
    requires waits { HasItsWait wait pass.old }
    ensures belongs { IsOf queue.now pass.new }
    ensures idle { IsTrue result → (pass_view pass.new).facts.doing ≡ Idle }
{
    match cancel(queue, pass, wait) {
        Left::Gone => true,
        Left::Late(_) => true,
        Left::GoneOwing(_) => false,
    }
}

/// In each round a permit that is free is taken and given back.
pub fn free_rounds(queue: &Queue<SemClient>, pass: &mut Pass<SemClient>, count: u64)
    requires belongs { IsOf queue.now pass.old }
    requires plain { sync_of (client_of queue.now) ≡ false }
    requires ample { ample_of queue.now ≡ true }
    requires limit { limit_of queue.now ≡ 1048576 }
    requires idle { (pass_view pass.old).facts.doing ≡ Idle }
{
    for _ in (0..count).rev() {
        if !free_round(queue, pass) {
            return;
        }
    }
}

/// The first round takes the permit. In each later one the pass that holds it waits for it,
/// gives it back, and is served.
pub fn pair_rounds(queue: &Queue<SemClient>, pass: &mut Pass<SemClient>, count: u64)
    requires belongs { IsOf queue.now pass.old }
    requires plain { sync_of (client_of queue.now) ≡ false }
    requires ample { ample_of queue.now ≡ true }
    requires limit { limit_of queue.now ≡ 1048576 }
    requires idle { (pass_view pass.old).facts.doing ≡ Idle }
{
    for _ in (0..count).rev() {
        if !pair_round(queue, pass) {
            return;
        }
    }
}

/// The first round takes the permit. In each later one the pass that holds it waits for it, and
/// leaves the line again.
pub fn leave_rounds(queue: &Queue<SemClient>, pass: &mut Pass<SemClient>, count: u64)
    requires belongs { IsOf queue.now pass.old }
    requires plain { sync_of (client_of queue.now) ≡ false }
    requires ample { ample_of queue.now ≡ true }
    requires limit { limit_of queue.now ≡ 1048576 }
    requires idle { (pass_view pass.old).facts.doing ≡ Idle }
{
    for _ in (0..count).rev() {
        if !leave_round(queue, pass) {
            return;
        }
    }
}
