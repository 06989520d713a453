//! A tenant, and its seats.

ghost use Rattle.std.specs.Prelude.{◌≡◌, true};
ghost use Rattle.cqs_rule.specs.Passes.{ample_of};

use cqs_rule::Place;
use cqs_semaphore::{SemPass, Semaphore};
use std::collections::BTreeMap;

/// Where a client is.
#[derive(Clone, Copy)]
pub(super) enum Seat {
    Out,
    /// It waits, and the cell of its wait stands there.
    Waiting(Place),
    Holding,
}

/// A semaphore, its one pass, and where each client is. It has a seat for each client that its
/// lines name.
#[derive(Drop)]
pub struct Tenant {
    pub(super) semaphore: Semaphore,
    pub(super) pass: SemPass,
    pub(super) seats: BTreeMap<u32, Seat>,
    // Its table has slots for all segments that can be wanted, so none of its calls is crowded.
    pub ghost ample_is: { ample_of semaphore.queue ≡ true },
}

impl Tenant {
    ghost use Rattle.cqs_limiter_tenant.specs.Seats.{IsKnown, IsSeatedSo, seat_of};

    /// Where the client is.
    pub(super) fn seat(&self, client: u32) -> Seat
        ensures { result ≡ seat_of self.now client }
    {
        self.seats.get(&client).copied().unwrap_or(Seat::Out)
    }

    /// The client is there now.
    pub(super) fn sit(&mut self, client: u32, seat: Seat)
        requires { IsKnown self.old client }
        ensures semaphore { self.new.semaphore ≡ self.old.semaphore }
        ensures pass { self.new.pass ≡ self.old.pass }
        ensures seats { IsSeatedSo self.old client seat self.new }
    {
        match self.seats.insert(client, seat) {
            Ok(_) => {}
            Err(_) => unreachable!(),
        }
    }
}
