//! The words of the commands that have workers.

ghost use Rattle.std.specs.Prelude.{◌∷◌, [], map, string_bytes};
ghost use Rattle.cqs_cli_top.specs.Words.{IsLimitOf, IsWorkOf};

use cqs_cli::read_number;

/// How many workers there are where the words don't say.
const WORKERS: u32 = 4;

/// How many workers the words ask for, if they are those of `work`.
pub fn workers_of(words: &[String]) -> Option<u32>
    ensures { IsWorkOf (map string_bytes words.now) result }
{
    match words {
        [word] => read_work(word.as_str()),
        [word, option, number] => { read_workers(word.as_str(), option.as_str(), number.as_str()) }
        _ => None,
    }
}

/// The number of workers of one word.
fn read_work(word: &str) -> Option<u32>
    ensures { IsWorkOf (word.now ∷ []) result }
{
    if word == "work" { Some(WORKERS) } else { None }
}

/// The number of workers of a word with an option.
fn read_workers(word: &str, option: &str, number: &str) -> Option<u32>
    ensures { IsWorkOf (word.now ∷ option.now ∷ number.now ∷ []) result }
{
    if word == "work" && option == "--workers" {
        read_number(number, 1, 16)
    } else {
        None
    }
}

/// Whether the words are those of `limit`.
pub fn is_limit(words: &[String]) -> bool
    ensures { IsLimitOf (map string_bytes words.now) result }
{
    match words {
        [word] => is_limit_word(word.as_str()),
        _ => false,
    }
}

/// Whether one word is.
fn is_limit_word(word: &str) -> bool
    ensures { IsLimitOf (word.now ∷ []) result }
{
    word == "limit"
}
