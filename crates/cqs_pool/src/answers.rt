//! What the calls of a pool answer.

ghost use Rattle.std.specs.Prelude.{◌≡◌};
ghost use Rattle.cqs_pool.specs.Owed.{IsUnrefused, IsPlacedAs, owed_after};

use crate::element::Element;
use cqs_resume::Resumed;
use cqs_rule::{Under, Wait};

/// What became of a take.
#[derive(Drop)]
pub enum Taking {
    /// The caller has an element.
    Took(Element),
    /// The caller waits in line.
    Later(Wait),
}

/// What became of an element that was put, or of one that was on its way.
#[derive(Drop)]
pub enum Placed {
    /// It went to the waiter of this number.
    Sent(u64),
    /// It was left in the cell of this number: it is free there, or its taker is about to wait
    /// there, or is about to leave and will pass it on.
    Left(u64),
    /// As many numbers were passed over as one call may, or there is no slot for the segment of the
    /// next; `finish` goes on.
    Under(Under),
}

impl Placed {
    // The resumption that is still owed.
    pub(crate) fn into_under(self) -> Option<Under>
        ensures { result ≡ owed_after self }
    {
        match self {
            Placed::Under(under) => Some(under),
            _ => None,
        }
    }
}

// What the end of a resumption means for the element that it brings.
pub(crate) fn placed_by(resumed: Resumed) -> Placed
    requires { IsUnrefused resumed }
    ensures { IsPlacedAs resumed result }
{
    match resumed {
        Resumed::Served(number) => Placed::Sent(number),
        Resumed::Left(number) => Placed::Left(number),
        Resumed::Refused(_) => unreachable!(),
        Resumed::Under(under) => Placed::Under(under),
    }
}

/// What a look at a wait found.
#[derive(Drop)]
pub enum PoolPolled {
    /// The element came.
    Granted(Element),
    /// The caller still waits.
    Pending(Wait),
}

/// What became of a cancel. It is never refused.
#[derive(Drop)]
pub enum PoolLeft {
    /// The wait is over, and no element came of it. Where one was on its way to it and is still
    /// to go on, `finish` goes on with it.
    Cancelled(Option<Under>),
    /// The element had come before.
    TooLate(Element),
}
