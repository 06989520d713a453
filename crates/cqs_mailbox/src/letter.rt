//! A letter.

/// What a post sends and the desk receives.
#[derive(Clone, Copy, Debug, PartialEq, Eq)]
pub struct Letter {
    /// The number of the post that sent it.
    pub sender: u32,
    /// Its number among the letters of its sender, from 0.
    pub number: u64,
    /// What it says.
    pub word: u64,
}
