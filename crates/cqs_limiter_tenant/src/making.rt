//! Tenants are made.

ghost use Rattle.std.specs.Prelude.{◌≡◌, ◌<◌, ◌≤◌, ◌+◌, IfOk, OnOk, length, slice_index};
ghost use Rattle.cqs_limiter_requests.specs.Requests.{IsValid};
ghost use Rattle.cqs_limiter_workers.specs.Sights.{own};
ghost use Rattle.cqs_limiter_tenant.specs.Made.{HasSeats, IsMade, IsNew, draws_at};
ghost use Rattle.cqs_limiter_tenant.specs.Seats.{IsKnown, IsSeatedSo};
ghost use Rattle.cqs_limiter_tenant.specs.Tenants.{enters};
ghost use Rattle.cqs_limiter_tenant.specs.declared.tenant.Seat.TheVariants.{Out};

use crate::tenant::{Seat, Tenant};
use cqs_core::Memory;
use cqs_limiter_requests::{Ask, Line, Requests};
use cqs_rule::{Config, MakeError};
use cqs_semaphore::Semaphore;
use std::alloc::{AllocError, Global};
use std::collections::BTreeMap;

/// How many numbers this line may draw of the tenant.
fn draws(line: Line, tenant: u32) -> u32
    ensures draws { result ≡ draws_at tenant line }
    ensures few { result ≤ 1 }
{
    if tenant != line.tenant {
        return 0;
    }
    match line.ask {
        Ask::Enter => 1,
        Ask::Look | Ask::Quit | Ask::Leave => 0,
    }
}

/// How many of the tenant's lines ask to enter.
fn enters_of(lines: &[Line], tenant: u32) -> u32
    requires { length lines.now ≤ 1048575 }
    ensures enters { result ≡ enters (own tenant lines.now) }
    ensures few { result ≤ 1048575 }
{
    let mut enters = 0;
    for line in lines {
        enters += draws(*line, tenant);
    }
    enters
}

impl Tenant {
    /// A tenant of so many permits, with room for so many waits, and no seat yet.
    fn open(alloc: Global, permits: u32, waits: u32) -> Result<Tenant, Memory>
        requires some { 0 < permits }
        requires most { permits ≤ 1048576 }
        requires few { waits ≤ 1048575 }
        ensures { IfOk result (IsMade permits waits) }
    {
        let config = Config {
            passes: 1,
            limit: u64::from(waits) + 1,
            slots: waits / 32 + 8,
        };
        let (semaphore, pass) = match Semaphore::ample(alloc, permits, config) {
            Ok(made) => made,
            Err(MakeError::Memory) => return Err(Memory),
            Err(MakeError::BadConfig) => unreachable!(),
        };
        Ok(Tenant {
            semaphore,
            pass,
            seats: BTreeMap::new(alloc),
        })
    }

    /// There is a seat for the client, who is out.
    fn add_seat(&mut self, client: u32) -> Result<(), AllocError>
        ensures semaphore { OnOk result (self.new.semaphore ≡ self.old.semaphore) }
        ensures pass { OnOk result (self.new.pass ≡ self.old.pass) }
        ensures seats { OnOk result (IsSeatedSo self.old client Out self.new) }
        ensures known { OnOk result (IsKnown self.new client) }
    {
        self.seats.insert(client, Seat::Out)?;
        Ok(())
    }

    /// There is a seat for each client that one of the tenant's lines names.
    fn add_seats(&mut self, lines: &[Line], tenant: u32) -> Result<(), AllocError>
        ensures { OnOk result (HasSeats self.old tenant lines.now self.new) }
    {
        for line in lines {
            if tenant == line.tenant {
                self.add_seat(line.client)?;
            }
        }
        Ok(())
    }

    /// The tenant at a place, with all its permits free and room for all its lines.
    pub fn new(alloc: Global, requests: &Requests, tenant: u32) -> Result<Tenant, Memory>
        requires valid { IsValid requests.now }
        requires there { tenant < length requests.now.permits.items }
        ensures { IfOk result (IsNew requests.now tenant) }
    {
        let lines = requests.asks.as_slice();
        let permits = requests.permits[tenant as usize];
        let mut made = Tenant::open(alloc, permits, enters_of(lines, tenant))?;
        made.add_seats(lines, tenant)?;
        Ok(made)
    }
}
