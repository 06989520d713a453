//! What the calls answer.

/// What a call answers. Tokens and permits stay with the pass.
#[derive(Clone, Copy, Drop)]
pub enum Answer {
    /// No pass has this number.
    NoPass,
    /// Another call has this pass.
    InUse,
    /// The pass owes a resumption: it is to be finished first.
    Owes,
    /// The pass owes nothing that might be finished.
    OwesNothing,
    /// The pass holds no permit.
    NoPermit,
    /// The pass holds no party, or fewer than it is to give.
    NoParty,
    /// The pass has no wait of this number.
    NoWait,
    /// The pass has no element of this number in hand.
    NoElement,
    /// The primitive has no such call.
    NoCall,
    /// The pass has as many waits as there is room for.
    Full,
    /// As many waits were drawn as the primitive was made for.
    Worn,
    /// The call may need a slot for the cells of more numbers, and each was seen taken. Nothing
    /// else came of it, and the pass has what it had. A later call may find one free.
    Crowded,
    /// As many passes were made as the primitive was made for.
    Crowd,
    /// There is no memory for another pass.
    Memory,
    /// The given pass waits, or owes something.
    Busy,
    /// The pass has a permit: one that was free, or that came by this number.
    Now(Option<u64>),
    /// It waits in line, under this number.
    Later(u64),
    /// It has a permit.
    Got,
    /// No permit was free.
    NoneFree,
    /// Another caller was first: the state was loaded as the one, and then found as the other. So
    /// are the parties that are still to arrive, and then the wait is still to be left by `finish`.
    Contended { saw: i64, found: i64 },
    /// The permit of the wait has come.
    Granted,
    /// The wait goes on.
    Pending,
    /// The wait is over, and nothing came of it.
    Cancelled,
    /// The same, and what was on its way to it is still to be passed on by `finish`. This is the
    /// last number that was drawn.
    CancelledOwing(u64),
    /// What it waited for had come before: the pass has the permit, or is through.
    TooLate,
    /// The permit is free.
    Freed,
    /// It went to the waiter of this number.
    Sent(u64),
    /// It was left in the cell of this number.
    Left(u64),
    /// The waiter of this number had left, and was told that the permit would be free: it is.
    Void(u64),
    /// As many numbers were passed over as one call may; `finish` goes on. This is the last one.
    Under(u64),
    /// The state: the free permits, less those who wait with none on its way.
    State(i64),
    /// The pass has the element of this number.
    Took(u32),
    /// The element of this number had come before, and the pass has it.
    LateTook(u32),
    /// The latch's count was used up, and the caller is through.
    Passed,
    /// The latch was opened, or all parties have arrived, and the wait is over.
    Through,
    /// So many counts are left.
    Counted(u32),
    /// It was the last count, or all parties have arrived: each who waited was resumed.
    Last,
    /// The same, but some of those who waited are still to be resumed, by `finish`. This is the
    /// last number that was drawn.
    LastOwing(u64),
    /// The count was used up before.
    Already,
    /// All that was owed is done.
    Finished,
    /// Whether no other pass is there.
    Sole(bool),
    /// The new pass has this number.
    Made(u32),
    /// The given pass was taken in, and its number is nobody's now.
    Met,
    /// A permit was held out in the cell of this number and taken back: of an acquire, by its
    /// release, and the caller has none; of a release, by this call, and the pass has it again.
    Broke(u64),
    /// The waiter of this number is about to leave: the rest is owed, and `finish` goes on.
    Handling(u64),
}
