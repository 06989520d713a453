//! Tenants apart.

ghost use Rattle.std.specs.Prelude.{◌≡◌, ◌<◌, ◌≤◌, IfOk};
ghost use Rattle.cqs_limiter.specs.Limits.{AreNew, HasLimited, limited_by};
ghost use Rattle.cqs_limiter_requests.specs.Requests.{IsValid};
ghost use Rattle.cqs_limiter_workers.specs.Noting.{told_by};

use cqs_core::Memory;
use cqs_limiter_requests::Requests;
use cqs_limiter_tenant::Tenant;
use cqs_limiter_workers::{Gate, Noted, Notes, Ran, run};
use std::alloc::Global;
use std::sync::Wait;
use std::thread::Threads;

/// What was done of a text of requests: the tenants in order of place, the list of outcomes, the
/// token of each line in order, and the text that answers it.
#[derive(Drop)]
pub struct Limited {
    pub tenants: Vec<Tenant>,
    pub notes: Notes,
    pub tokens: Vec<Noted>,
    pub text: Vec<u8>,
}

/// All tenants, in order of place.
fn tenants_of(alloc: Global, requests: &Requests) -> Result<Vec<Tenant>, Memory>
    requires { IsValid requests.now }
    ensures { IfOk result (λ tenants. AreNew requests.now tenants.items) }
{
    let many = requests.permits.len() as u32;
    let mut tenants = Vec::with_capacity(alloc, many as usize)?;
    for tenant in 0..many {
        let made = Tenant::new(alloc, requests, tenant)?;
        tenants.push(made)?;
    }
    Ok(tenants)
}

/// What a run of workers left, handed on.
fn limited_by(ran: Ran<Tenant>) -> Limited
    ensures { result ≡ limited_by ran }
{
    Limited {
        tenants: ran.tenants,
        notes: ran.notes,
        tokens: ran.tokens,
        text: ran.text,
    }
}

/// Workers ask all lines, each those of its tenants; the tenant at the place `t` is that of the
/// worker `t % workers`. Whatever their number, what is left is what one thread leaves that asks
/// line after line.
pub fn limit_run<R: Threads + Wait + Sync, G: Gate + Sync>(
    rt: &R,
    alloc: Global,
    requests: &Requests,
    workers: u32,
    gate: &G,
) -> Result<Limited, Memory>
    requires valid { IsValid requests.now }
    requires some { 0 < workers }
    requires few { workers ≤ 16 }
    ensures { IfOk result (λ limited. HasLimited requests.now
        (told_by G.begun G.ended gate.now) workers limited) }
{
    let tenants = tenants_of(alloc, requests)?;
    let ran = run(rt, alloc, requests.asks.as_slice(), tenants, workers, gate)?;
    Ok(limited_by(ran))
}
