//! The words of the command line.
ghost use Rattle.std.specs.Prelude.{◌≡◌, IfOk, IsErr, map, string_bytes};
ghost use Rattle.cqs_cli_main.specs.Arguments.{RanOutOfMemory, words_of};

use std::alloc::{AllocError, Global};
use std::env::Args;
use std::io;
use std::io::ErrorKind;

/// The words after the program's name, from what the system answered when it was asked for all.
///
/// Where one of them is no UTF-8 the system's answer is an error, and there are no words.
pub fn words_after_name(
    alloc: Global,
    arguments: io::Result<Args>,
) -> Result<Vec<String>, AllocError>
    ensures words { IfOk result (λ words. map string_bytes words.items ≡ words_of arguments) }
    ensures memory { RanOutOfMemory arguments → IsErr result }
{
    match arguments {
        Ok(arguments) => arguments.skip(1).collect(alloc),
        Err(error) if error.kind() == ErrorKind::OutOfMemory => Err(AllocError),
        Err(_) => Ok(Vec::new(alloc)),
    }
}
