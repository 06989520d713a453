//! What is written of a text.

use cqs_cli_histories::{Studied, Study, study_input};
use cqs_core::Memory;
use cqs_replay::{ScheduleError, read_schedule, write_schedule};
use std::alloc::Global;

/// What a command of the program makes of a text.
fn studied(alloc: Global, study: Study, text: &[u8]) -> anyhow::Result<Vec<u8>> {
    if text.len() >= 4_294_967_296 {
        anyhow::bail!("too long");
    }
    match study_input(alloc, study, text) {
        Ok(Studied::Text(made) | Studied::BadText(made) | Studied::NotLegal(made)) => Ok(made),
        Err(_) => anyhow::bail!("no memory"),
    }
}

/// A schedule, read and written again.
fn rewritten(alloc: Global, text: &[u8]) -> anyhow::Result<Vec<u8>> {
    if text.len() >= 4_294_967_296 {
        anyhow::bail!("too long");
    }
    match read_schedule(alloc, text) {
        Ok(schedule) => match write_schedule(alloc, &schedule) {
            Ok(text) => Ok(text),
            Err(Memory) => anyhow::bail!("no memory"),
        },
        // It is answered as by the commands that read one.
        Err(ScheduleError::BadLine(_)) => studied(alloc, Study::Replay, text),
        Err(ScheduleError::Memory) => anyhow::bail!("no memory"),
    }
}

/// What a command writes of a text. Behind its word ` cut` leaves out the text's last byte.
pub fn answer(alloc: Global, command: &str, text: &str) -> anyhow::Result<Vec<u8>> {
    let (word, text) = match command.strip_suffix(" cut") {
        Some(word) => (word, text.strip_suffix("\n").unwrap_or(text)),
        None => (command, text),
    };
    match word {
        "replay" => studied(alloc, Study::Replay, text.as_bytes()),
        "history" => studied(alloc, Study::History, text.as_bytes()),
        "check" => studied(alloc, Study::Check, text.as_bytes()),
        "rewrite" => rewritten(alloc, text.as_bytes()),
        _ => anyhow::bail!("{command} asks nothing"),
    }
}
