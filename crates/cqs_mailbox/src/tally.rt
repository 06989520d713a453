//! What a pass of a sender's acknowledgements knows. No value of it is made.

/// How many acknowledgements were given by the desk and taken by the post.
pub enum Tally {
    /// The desk, before the post is made and once it was met.
    Both { given: u64, taken: u64 },
    /// The desk, where a post is there.
    Desk { given: u64 },
    /// The post.
    Post { taken: u64 },
    /// A pass that was joined away.
    Gone,
}
