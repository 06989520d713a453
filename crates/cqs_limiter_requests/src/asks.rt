//! What clients ask, and what they are answered.

/// What a client asks for.
#[derive(Clone, Copy, PartialEq, Eq)]
pub enum Ask {
    /// A permit, or else a wait for one.
    Enter,
    /// Whether its wait was served.
    Look,
    /// To give its wait up.
    Quit,
    /// To give its permit back.
    Leave,
}

/// What a client is answered.
#[derive(Clone, Copy, PartialEq, Eq)]
pub enum Answer {
    Now,
    /// It waits under this number.
    Waits(u64),
    Granted,
    Pending,
    Gone,
    Late,
    Freed,
    /// Its permit was sent to the wait of this number.
    Sent(u64),
    /// Where the client is it can't ask this.
    Refused,
}

/// A line of a request text.
#[derive(Clone, Copy)]
pub struct Line {
    pub tenant: u32,
    pub client: u32,
    pub ask: Ask,
}

/// A line with its reply.
#[derive(Clone, Copy)]
pub struct LimitOutcome {
    pub tenant: u32,
    pub client: u32,
    pub ask: Ask,
    pub answer: Answer,
}
