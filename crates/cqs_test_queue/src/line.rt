//! The one pass of a queue of one permit: how it comes to wait in line, and how it sends the permit
//! there.

ghost use Rattle.std.specs.Prelude.{◌≡◌, ◌<◌, IfOk, IsTrue, true, false};
ghost use Rattle.cqs_core.specs.declared.doings.Doing.TheVariants.{Door, Idle, Owes};
ghost use Rattle.cqs_rule.specs.Passes.{ample_of, client_of, pass_view, IsOf};
ghost use Rattle.cqs_rule.specs.Waits.{HasWait, place_of};
ghost use Rattle.cqs_semaphore_client.specs.SemaphoreMade.{sync_of};
ghost use Rattle.cqs_words.specs.State.{is_below_zero};

use cqs_resume::{Resumed, resume};
use cqs_rule::{CancelMode, Config, MakeError, Pass, Queue, Wait};
use cqs_semaphore_client::{SemClient, give_permit, take_permit};
use cqs_suspend::{Suspended, suspend};
use cqs_words::PackedState;
use std::alloc::Global;
use std::process::Abort;

/// One pass, of a queue that draws few numbers.
pub const CONFIG: Config = Config {
    passes: 1,
    limit: 4,
    slots: 4,
};

/// A queue of one permit, and its one pass.
pub fn alone(alloc: Global) -> Result<(Queue<SemClient>, Pass<SemClient>), MakeError>
    ensures belongs { IfOk result (λ made. IsOf made.0 made.1) }
    ensures idle { IfOk result (λ made. (pass_view made.1).facts.doing ≡ Idle) }
    ensures may_draw { IfOk result (λ made. (pass_view made.1).facts.may_draw ≡ true) }
    ensures ample { IfOk result (λ made. ample_of made.0 ≡ true) }
    ensures plain { IfOk result (λ made. sync_of (client_of made.0) ≡ false) }
{
    Queue::ample(alloc, CONFIG, CancelMode::Smart, SemClient::new(1))
}

/// Whether the pass holds so many permits, has so many waits, and owes a permit.
pub fn has(pass: &Pass<SemClient>, held: u32, waits: u32, owes: bool) -> bool {
    pass.held() == held && pass.waits() == waits && pass.owes() == owes
}

/// Whether the permit that was given back goes to one who waits.
pub fn is_for_one(given: PackedState) -> bool
    ensures { IsTrue result → is_below_zero given.word ≡ true }
{
    given.word == 4_294_967_295 && given.is_below_zero()
}

/// Takes the permit, and comes to the door for another.
pub fn come(rt: &impl Abort, queue: &Queue<SemClient>, pass: &mut Pass<SemClient>)
    requires belongs { IsOf queue.now pass.old }
    requires idle { (pass_view pass.old).facts.doing ≡ Idle }
    requires may_draw { (pass_view pass.old).facts.may_draw ≡ true }
    ensures belongs { IsOf queue.now pass.new }
    ensures door { (pass_view pass.new).facts.doing ≡ Door }
    ensures holds { 0 < (pass_view pass.new).facts.has.held }
{
    assert!(rt; take_permit(queue, pass).word == 4_294_967_297);
    assert!(rt; take_permit(queue, pass).word == 4_294_967_296);
}

/// Comes to the door, and waits in line.
pub fn wait(rt: &impl Abort, queue: &Queue<SemClient>, pass: &mut Pass<SemClient>) -> Wait
    requires belongs { IsOf queue.now pass.old }
    requires plain { sync_of (client_of queue.now) ≡ false }
    requires ample { ample_of queue.now ≡ true }
    requires idle { (pass_view pass.old).facts.doing ≡ Idle }
    requires may_draw { (pass_view pass.old).facts.may_draw ≡ true }
    ensures belongs { IsOf queue.now pass.new }
    ensures idle { (pass_view pass.new).facts.doing ≡ Idle }
    ensures holds { 0 < (pass_view pass.new).facts.has.held }
    ensures waits { HasWait (pass_view pass.new) result }
    ensures below { (place_of result).index < (pass_view pass.new).cells }
{
    come(rt, queue, pass);
    let Suspended::Waits(wait) = suspend(queue, pass) else {
        panic!(rt; "no value was left for the first number");
    };
    assert!(rt; wait.number() == 0);
    assert!(rt; has(pass, 1, 1, false));
    wait
}

/// Waits in line, and gives the permit back, which is owed to the line now.
pub fn owe(rt: &impl Abort, queue: &Queue<SemClient>, pass: &mut Pass<SemClient>)
    requires belongs { IsOf queue.now pass.old }
    requires plain { sync_of (client_of queue.now) ≡ false }
    requires ample { ample_of queue.now ≡ true }
    requires idle { (pass_view pass.old).facts.doing ≡ Idle }
    requires may_draw { (pass_view pass.old).facts.may_draw ≡ true }
    ensures belongs { IsOf queue.now pass.new }
    ensures owes { (pass_view pass.new).facts.doing ≡ Owes }
    ensures payload { (pass_view pass.new).facts.has.payload ≡ 0 }
    ensures reached { (pass_view pass.new).facts.reached ≡ 0 }
{
    wait(rt, queue, pass);
    if !is_for_one(give_permit(queue, pass)) {
        panic!(rt; "somebody waits for the permit");
    }
}

/// Gives the permit back, and resumes the first of the line with it, which is the pass itself.
pub fn send(
    rt: &impl Abort,
    queue: &Queue<SemClient>,
    pass: &mut Pass<SemClient>,
    wait: Wait,
) -> Wait
    requires belongs { IsOf queue.now pass.old }
    requires plain { sync_of (client_of queue.now) ≡ false }
    requires ample { ample_of queue.now ≡ true }
    requires idle { (pass_view pass.old).facts.doing ≡ Idle }
    requires holds { 0 < (pass_view pass.old).facts.has.held }
    requires waits { HasWait (pass_view pass.old) wait }
    ensures belongs { IsOf queue.now pass.new }
    ensures idle { (pass_view pass.new).facts.doing ≡ Idle }
    ensures waits { HasWait (pass_view pass.new) result }
{
    if !is_for_one(give_permit(queue, pass)) {
        panic!(rt; "somebody waits for the permit");
    }
    assert!(rt; has(pass, 0, 1, true));
    let Resumed::Served(served) = resume(queue, pass, 0) else {
        panic!(rt; "the first waiter stands in its cell");
    };
    assert!(rt; served == 0);
    assert!(rt; has(pass, 0, 1, false));
    wait
}
