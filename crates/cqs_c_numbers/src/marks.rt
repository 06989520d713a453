//! The table in which passes rest, and the steps on its marks.

ghost use Rattle.cqs_c_numbers.specs.Marks.{Marks, StaysSeated, HasClaimed, HasLaid};

use crate::caller::Caller;
use crate::primitive::Primitive;
use atomic_table::{Play, Seat, Table, TableRule};
use std::alloc::Global;

/// The mark of a pass that rests in its slot.
pub(crate) const RESTS: u64 = 0;

/// The mark of a pass that a call has.
pub(crate) const TAKEN: u64 = 1;

/// The mark of a number that nobody has.
pub(crate) const NOBODY: u64 = 2;

/// The rule of the table.
pub(crate) struct Rests;

impl TableRule<Option<Caller>, Primitive, Primitive> for Rests {
    ghost holds = { Marks };

    ghost first = { λ s. s };
}

/// The table: a mark and a slot for each pass, each mark with its cache lines for itself.
pub(crate) type Slots = Table<Option<Caller>, Primitive, Primitive, Rests, Global>;

/// Who has a pass in hand.
pub(crate) type Hand = Seat<Option<Caller>, Primitive>;

/// One comes to the table.
pub(crate) struct Sit;

impl Play<Option<Caller>, Primitive> for Sit {
    ghost then = { StaysSeated };
}

/// It takes what lies in a slot, where the mark is the one that it expects.
pub(crate) struct Claim;

impl Play<Option<Caller>, Primitive> for Claim {
    ghost then = { HasClaimed };
}

/// It lays something into the slot, under a mark that this suits.
pub(crate) struct Lay;

impl Play<Option<Caller>, Primitive> for Lay {
    ghost then = { HasLaid };
}
