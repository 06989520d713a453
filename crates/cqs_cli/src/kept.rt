//! What a call of the program keeps for its caller.

use cqs_floor_alone::QueueFloor;

/// What a call of the program keeps: nothing, or what its command worked on.
#[derive(Drop)]
pub enum Kept {
    /// No command made its text.
    Nothing,
    /// The floor on which a plan was run, as it stood when the report was made.
    Ran(QueueFloor),
}
