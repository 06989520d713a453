//! An example to be read first. One caller takes a permit and gives it back (`alone`). Then two
//! threads share a semaphore of one permit: the host has the permit, and the guest waits for it and
//! gives up.
#![tactic(auto)]

mod alone;

ghost use Rattle.std.specs.Prelude.{◌≡◌, ◌-◌, ◌<◌, true};
ghost use Rattle.cqs_rule.specs.Passes.{ample_of};
ghost use Rattle.cqs_semaphore.specs.Callers.{held_by, IsAtRest, IsWaiting, IsOwing, HasEnded};

use alone::take_one;
use cqs_rule::{Config, Under, Wait};
use cqs_semaphore::{Acquired, CancelAnswer, Permit, Polled, Released, SemPass, Semaphore};
use std::fmt;
use std::thread::{self, Threads};

/// A pass for each thread, and numbers for 1,024 waits. `ample` makes slots for all of these, so no
/// call is crowded.
const CONFIG: Config = Config {
    passes: 2,
    limit: 1024,
    slots: 6,
};

/// The guest looks so often at its wait before it gives up.
const LOOKS: u32 = 1000;

/// How a visit ended.
#[derive(Clone, Copy, Drop)]
enum Ending {
    Admitted,
    GaveUp { wait: u64 },
    TurnedAway,
}

impl fmt::Display for Ending {
    fn fmt<W: fmt::Write>(&self, f: &mut fmt::Formatter<W>) -> fmt::Result {
        match self {
            Ending::Admitted => write!(f, "was admitted"),
            Ending::GaveUp { wait } => write!(f, "gave up wait {wait}"),
            Ending::TurnedAway => write!(f, "was turned away"),
        }
    }
}

/// The guest takes a permit, or waits for one.
fn visit(semaphore: &Semaphore, pass: SemPass) -> (SemPass, Ending)
    requires rest { IsAtRest semaphore.now 0 pass }
    requires ample { ample_of semaphore.now.queue ≡ true }
    ensures rest { IsAtRest semaphore.now 0 result.0 }
{
    let mut pass = pass;
    let told = enter(semaphore, &mut pass);
    (pass, told)
}

fn enter(semaphore: &Semaphore, pass: &mut SemPass) -> Ending
    requires rest { IsAtRest semaphore.now (held_by pass.old) pass.old }
    requires ample { ample_of semaphore.now.queue ≡ true }
    ensures rest { IsAtRest semaphore.now (held_by pass.old) pass.new }
{
    match semaphore.acquire(pass) {
        Ok(Acquired::Now(permit)) => leave(semaphore, pass, permit),
        Ok(Acquired::Later(wait)) => wait_for(semaphore, pass, wait),
        Err(_) => Ending::TurnedAway,
    }
}

/// The guest looks at its wait, but not for ever.
fn wait_for(semaphore: &Semaphore, pass: &mut SemPass, wait: Wait) -> Ending
    requires waits { IsWaiting semaphore.now (held_by pass.old) wait pass.old }
    requires ample { ample_of semaphore.now.queue ≡ true }
    ensures rest { IsAtRest semaphore.now (held_by pass.old) pass.new }
{
    let number = wait.number();
    let mut wait = wait;
    for _ in 0..LOOKS {
        match semaphore.poll(pass, wait) {
            Polled::Granted(permit) => return leave(semaphore, pass, permit),
            Polled::Pending(again) => wait = again,
        }
    }
    match give_up(semaphore, pass, wait) {
        None => Ending::GaveUp { wait: number },
        Some(permit) => leave(semaphore, pass, permit),
    }
}

/// The guest leaves the line, or has the permit that came before.
fn give_up(semaphore: &Semaphore, pass: &mut SemPass, wait: Wait) -> Option<Permit>
    requires waits { IsWaiting semaphore.now (held_by pass.old) wait pass.old }
    requires ample { ample_of semaphore.now.queue ≡ true }
    ensures ended { HasEnded semaphore.now (held_by pass.old) result pass.new }
{
    match semaphore.cancel(pass, wait) {
        CancelAnswer::Cancelled(None) => None,
        CancelAnswer::Cancelled(Some(under)) => {
            finish(semaphore, pass, under);
            None
        }
        CancelAnswer::TooLate(permit) => Some(permit),
    }
}

/// Who was admitted gives the permit back.
fn leave(semaphore: &Semaphore, pass: &mut SemPass, permit: Permit) -> Ending
    requires rest { IsAtRest semaphore.now (held_by pass.old) pass.old }
    requires holds { 0 < held_by pass.old }
    requires ample { ample_of semaphore.now.queue ≡ true }
    ensures rest { IsAtRest semaphore.now (held_by pass.old - 1) pass.new }
{
    match semaphore.release(pass, permit) {
        Ok(Released::Under(under)) => finish(semaphore, pass, under),
        Ok(_) => {}
        Err(_) => unreachable!(),
    }
    Ending::Admitted
}

/// More waiters had left than one call passes over: goes on until the permit has arrived.
fn finish(semaphore: &Semaphore, pass: &mut SemPass, under: Under)
    requires owes { IsOwing semaphore.now (held_by pass.old) under pass.old }
    requires ample { ample_of semaphore.now.queue ≡ true }
    ensures rest { IsAtRest semaphore.now (held_by pass.old) pass.new }
{
    let mut under = under;
    'arrive: loop {
        match semaphore.finish(pass, under) {
            Released::Under(again) => under = again,
            _ => return,
        }
    }
}

/// The host works, while the guest comes.
fn meanwhile<R: Threads>(rt: &R, semaphore: &Semaphore, guest: SemPass) -> (SemPass, Ending)
    requires rest { IsAtRest semaphore.now 0 guest }
    requires ample { ample_of semaphore.now.queue ≡ true }
    ensures rest { IsAtRest semaphore.now 0 result.0 }
{
    thread::join(rt, || thread::yield_now(), || visit(semaphore, guest)).1
}

fn main(rt: HostRuntime) -> anyhow::Result<()> {
    if take_one(rt.alloc()).is_err() {
        anyhow::bail!("no memory for a semaphore of three");
    }
    println!(rt; "one caller took a permit and gave it back")?;
    let Ok((semaphore, mut host)) = Semaphore::ample(rt.alloc(), 1, CONFIG) else {
        anyhow::bail!("no memory for the semaphore");
    };
    let Ok(guest) = semaphore.split(&mut host) else {
        anyhow::bail!("no further pass may be made");
    };
    let Ok(Acquired::Now(permit)) = semaphore.acquire(&mut host) else {
        anyhow::bail!("no permit was free");
    };
    println!(rt; "the host has the permit")?;
    let (guest, told) = meanwhile(&rt, &semaphore, guest);
    println!(rt; "the guest {told}")?;
    leave(&semaphore, &mut host, permit);
    if semaphore.meet(&mut host, guest).is_err() {
        anyhow::bail!("the guest still waits");
    }
    println!(rt;
        "the permit is back, and the state is {}",
        semaphore.state(&mut host)
    )?;
    Ok(())
}
