//! The words of a command, and the text for those that are none.

ghost use Rattle.std.specs.Prelude.{map, string_bytes, ◌∷◌, []};
ghost use Rattle.cqs_cli.specs.Words.{IsCommandOf, IsGenOf, IsNumberOf};

use cqs_cli_histories::Study;
use itoa::Buffer;

/// What is written where the words are no command.
pub const USAGE: &str =
    "usage: cqs run\n       cqs work [--workers N]\n       cqs gen --number N --jobs M\
     \n       cqs replay\n       cqs history\n       cqs check\n       cqs limit\n";

/// A command of the program.
#[derive(Drop)]
pub enum Command {
    /// Reads a plan and writes its report.
    Run,
    /// Makes the plan of a number, with so many jobs, and writes a summary of its run.
    Gen { number: u32, jobs: u32 },
    /// Reads a schedule or a history, and writes what this study of it comes to.
    Read(Study),
}

/// The command that the words are, if they are one.
pub fn command_of(words: &[String]) -> Option<Command>
    ensures { IsCommandOf (map string_bytes words.now) result }
{
    match words {
        [word] => read_word(word.as_str()),
        [word, first, number, second, other] => {
            read_gen(
                word.as_str(),
                first.as_str(),
                number.as_str(),
                second.as_str(),
                other.as_str(),
            )
        }
        _ => None,
    }
}

/// The command of one word.
fn read_word(word: &str) -> Option<Command>
    ensures { IsCommandOf (word.now ∷ []) result }
{
    if word == "run" {
        Some(Command::Run)
    } else if word == "replay" {
        Some(Command::Read(Study::Replay))
    } else if word == "history" {
        Some(Command::Read(Study::History))
    } else if word == "check" {
        Some(Command::Read(Study::Check))
    } else {
        None
    }
}

/// The command of a word with two options, which may come in either order.
fn read_gen(word: &str, first: &str, value: &str, second: &str, other: &str) -> Option<Command>
    ensures { IsCommandOf
        (word.now ∷ first.now ∷ value.now ∷ second.now ∷ other.now ∷ []) result }
{
    if word != "gen" {
        None
    } else if first == "--number" && second == "--jobs" {
        read_numbers(value, other)
    } else if first == "--jobs" && second == "--number" {
        read_numbers(other, value)
    } else {
        None
    }
}

/// The command that makes the plan of this number, with so many jobs.
fn read_numbers(number: &str, jobs: &str) -> Option<Command>
    ensures { IsGenOf number.now jobs.now result }
{
    let number = read_number(number, 0, 2_147_483_647)?;
    let jobs = read_number(jobs, 1, 4_096)?;
    Some(Command::Gen { number, jobs })
}

/// The number in this range whose digits the word is: no sign and no leading zero.
pub fn read_number(word: &str, least: u32, most: u32) -> Option<u32>
    ensures { IsNumberOf word.now least most result }
{
    match word.parse::<u32>() {
        Ok(number) if least <= number && number <= most => {
            if Buffer::new().format(number) == word {
                Some(number)
            } else {
                None
            }
        }
        _ => None,
    }
}
