//! Workers beside each other.

ghost use Rattle.std.specs.Prelude.{◌≡◌, ◌≢◌, ◌<◌, ◌≤◌, ◌^◌, ◌&&◌, None, Some, IfOk, All, MatchOption, length, map, true, vec_len};
ghost use Rattle.cqs_limiter_workers.specs.Noting.{IsOf, noted_value, told_by};
ghost use Rattle.cqs_limiter_workers.specs.Sights.{IsNext, Serves};
ghost use Rattle.cqs_limiter_workers.specs.Serving.{AllServed, CanServe, HasServed, outcome_at};

use crate::desks::Desk;
use crate::gate::Gate;
use crate::notes::{Noted, Notes};
use cqs_limiter_requests::{LimitOutcome, Line};
use std::alloc::{AllocError, Global};
use std::sync::Wait;
use std::thread;
use std::thread::Threads;

/// A worker before its first request: its number, and its tenants, each at its place. At the
/// places of the others' tenants there is none.
#[derive(Drop)]
pub struct Post<T> {
    pub worker: u32,
    pub desks: Vec<Option<T>>,
}

/// A worker after its last request: its tenants, and the tokens of their lines, in order.
#[derive(Drop)]
pub struct Told<T> {
    pub desks: Vec<Option<T>>,
    pub tokens: Vec<Noted>,
}

/// Asks one line, between the two calls of the gate, and records the outcome.
fn serve<R: Threads + Wait, G: Gate, T: Desk>(
    rt: &R,
    notes: &Notes,
    gate: &G,
    worker: u32,
    request: u32,
    desk: &mut T,
    line: Line,
) -> Result<Noted, AllocError>
    requires { IsNext T.sight desk.old line }
    ensures noted { IfOk result (λ noted. IsOf notes.now noted
        × (noted_value noted ≡ outcome_at (T.sight.standing desk.old) line)) }
    ensures told { told_by G.begun G.ended gate.now worker request ≡ true }
    ensures desk { Serves T.sight desk.old line desk.new }
{
    gate.before(rt, worker, request);
    let answer = desk.ask(line);
    gate.after(rt, worker, request);
    let outcome = LimitOutcome {
        tenant: line.tenant,
        client: line.client,
        ask: line.ask,
        answer,
    };
    match notes.put(rt, outcome) {
        Ok(noted) => Ok(noted),
        Err(_) => Err(AllocError),
    }
}

/// A worker asks the lines of its tenants in their order, and records each outcome.
fn work<R: Threads + Wait, G: Gate, T: Desk + Drop>(
    rt: &R,
    alloc: Global,
    notes: &Notes,
    gate: &G,
    lines: &[Line],
    post: Post<T>,
) -> Result<Told<T>, AllocError>
    requires few { length lines.now < 2 ^ 31 }
    requires can { CanServe T.sight lines.now post.desks.items }
    ensures { IfOk result (λ told. HasServed T.sight notes.now
        (told_by G.begun G.ended gate.now post.worker) lines.now
        post.desks.items told.desks.items told.tokens.items) }
{
    let Post { worker, mut desks } = post;
    let mut tokens = Vec::new(alloc);
    for line in lines {
        let Some(desk) = &mut desks[line.tenant as usize] else {
            continue;
        };
        let request = tokens.len() as u32 + 1;
        let noted = serve(rt, notes, gate, worker, request, desk, *line)?;
        tokens.push(noted)?;
    }
    Ok(Told { desks, tokens })
}

/// All workers beside each other, each in a thread of its own where one can be made. A worker
/// without memory says so in its place.
pub fn work_all<R: Threads + Wait + Sync, G: Gate + Sync, T: Desk + Send + Drop>(
    rt: &R,
    alloc: Global,
    notes: &Notes,
    gate: &G,
    lines: &[Line],
    posts: Vec<Post<T>>,
) -> Result<Vec<Result<Told<T>, AllocError>>, AllocError>
    requires few { length lines.now < 2 ^ 31 }
    requires can { All (λ post. CanServe T.sight lines.now post.desks.items) posts.items }
    ensures len { IfOk result (λ all. vec_len all ≡ vec_len posts) }
    ensures each { IfOk result (λ all. AllServed T.sight notes.now
        (told_by G.begun G.ended gate.now) lines.now posts.items all.items) }
{
    thread::map_vec(
        rt,
        posts,
        &|post| { work(rt, alloc, notes, gate, lines, post) },
    )
}
