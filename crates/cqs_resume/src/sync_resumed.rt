//! What became of a resume of a synchronous queue.

use cqs_rule::Under;

/// What became of a resume of a synchronous queue.
#[derive(Drop)]
pub enum SyncResumed {
    /// The waiter of this number was served, or its suspend has taken the value.
    Served(u64),
    /// The waiter of this number was refused to leave, and the value ended at its cell.
    Refused(u64),
    /// Nobody took the value that was left in the cell of this number: the pass has it back, and
    /// the suspend of the number will find the cell broken.
    Broke(u64),
    /// The waiter of this number is leaving, and the resumption is still owed there: it goes on
    /// once the canceller has ended.
    Handling(u64, Under),
    /// As many numbers were passed over as one call may, or there is no slot for the segment of the
    /// next; the resumption is still owed.
    Under(Under),
}
