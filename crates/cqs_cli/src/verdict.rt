//! What a call of the program comes to.

use cqs_cli_histories::Studied;

/// What a call comes to, before anything is written.
#[derive(Drop)]
pub enum Verdict {
    /// The words are no command. The usage text is to be written.
    NoCommand,
    /// The input is a plan with this report.
    Report(Vec<u8>),
    /// The words ask for the plan of a number, and this is written for it.
    Summary(Vec<u8>),
    /// The input is no plan, and this line says what is wrong with it.
    NoPlan(Vec<u8>),
    /// The input was read as a schedule or a history, and this is to be written for it.
    Studied(Studied),
    /// The source failed. Nothing is to be written.
    SourceFailed,
    /// There was no memory. Nothing is to be written.
    NoMemory,
    /// The input is too long. Nothing is to be written.
    TooLong,
}
