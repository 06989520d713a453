//! A run of workers over all tenants.

ghost use Rattle.std.specs.Prelude.{◌≡◌, ◌<◌, ◌≤◌, ◌^◌, IfOk, length, vec_len};
ghost use Rattle.cqs_limiter_workers.specs.Noting.{told_by};
ghost use Rattle.cqs_limiter_workers.specs.Running.{CanRun, HasRun};

use crate::deals::posts_for;
use crate::desks::Desk;
use crate::gate::Gate;
use crate::gathers::{gather, part};
use crate::notes::{Noted, Notes};
use crate::tokens::{deal_back, text_of};
use crate::works::work_all;
use cqs_limiter_requests::Line;
use std::alloc::{AllocError, Global};
use std::sync::Wait;
use std::thread::Threads;

/// What a run leaves: the tenants in order of place, the list of outcomes, the token of each line
/// in order, and a line of text for each.
#[derive(Drop)]
pub struct Ran<T> {
    pub tenants: Vec<T>,
    pub notes: Notes,
    pub tokens: Vec<Noted>,
    pub text: Vec<u8>,
}

/// Workers ask all lines, each those of its tenants. The tenant at the place `t` is that of the
/// worker `t % workers`.
pub fn run<R: Threads + Wait + Sync, G: Gate + Sync, T: Desk + Send + Drop>(
    rt: &R,
    alloc: Global,
    lines: &[Line],
    tenants: Vec<T>,
    workers: u32,
    gate: &G,
) -> Result<Ran<T>, AllocError>
    requires workers { 0 < workers }
    requires few { length lines.now < 2 ^ 31 }
    requires can { CanRun T.sight lines.now tenants.items }
    ensures { IfOk result (λ ran. HasRun T.sight (told_by G.begun G.ended gate.now) lines.now
        tenants.items workers ran) }
{
    let many = tenants.len();
    let notes = Notes::new(alloc)?;
    let posts = posts_for(alloc, tenants, workers)?;
    let told = work_all(rt, alloc, &notes, gate, lines, posts)?;
    let hands = part(alloc, told)?;
    let tokens = deal_back(alloc, &notes, lines, hands.as_slice())?;
    let text = text_of(alloc, &notes, tokens.as_slice())?;
    let tenants = gather(alloc, hands, many)?;
    Ok(Ran {
        tenants,
        notes,
        tokens,
        text,
    })
}
