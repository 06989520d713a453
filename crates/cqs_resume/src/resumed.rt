//! What became of a resume.

use cqs_rule::Under;

/// What became of a resume.
#[derive(Drop)]
pub enum Resumed {
    /// The waiter of this number was served.
    Served(u64),
    /// The value was left in the cell of this number: for its suspend, or for its canceller, who is
    /// to go on with it.
    Left(u64),
    /// The waiter of this number was refused to leave, and the value ended at its cell.
    Refused(u64),
    /// As many numbers were passed over as one call may, or there is no slot for the segment of the
    /// next; the resumption is still owed.
    Under(Under),
}
