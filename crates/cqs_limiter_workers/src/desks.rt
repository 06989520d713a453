//! What answers the requests of one tenant.

use cqs_limiter_requests::{Answer, Line};

/// What answers the requests of one tenant. Contracts see it by its sight: the tenant as a plain
/// one, the entries that its pass has seen, and for which requests it has room.
pub trait Desk: Sized {
    ghost use Rattle.cqs_limiter_workers.specs.Sights.{Sight, IsNext, Answers};

    ghost sight: { Sight Self };

    /// Answers the request. It takes no memory.
    fn ask(&mut self, line: Line) -> Answer
        requires { IsNext sight self.old line }
        ensures { Answers sight self.old line result self.new };
}
