//! Writing what a line says.

ghost use Rattle.std.specs.Prelude.{◌≡◌, ◌∷◌, ◌++◌, OnOk, decimal};
ghost use Rattle.cqs_lines.specs.Said.{said, said_text};

use itoa::Buffer;
use std::alloc::AllocError;

/// Appends a space and the number in decimal.
pub fn write_number(text: &mut Vec<u8>, number: u64) -> Result<(), AllocError>
    ensures { OnOk result (text.new.items ≡ text.old.items ++ 32 ∷ decimal number) }
{
    let mut buffer = Buffer::new();
    text.extend_from_slice(b" ")?;
    text.extend_from_slice(buffer.format(number).as_bytes())?;
    Ok(())
}

/// Appends a label and the number in decimal.
pub fn write_labelled(text: &mut Vec<u8>, label: &[u8], number: u64) -> Result<(), AllocError>
    ensures { OnOk result (text.new.items ≡ text.old.items ++ label.now ++ decimal number) }
{
    let mut buffer = Buffer::new();
    text.extend_from_slice(label)?;
    text.extend_from_slice(buffer.format(number).as_bytes())?;
    Ok(())
}

/// Appends a line of this verb and these numbers, without its line feed.
pub fn write_said(text: &mut Vec<u8>, verb: &[u8], numbers: &[u64]) -> Result<(), AllocError>
    ensures { OnOk result
        (text.new.items ≡ text.old.items ++ said_text (said verb.now numbers.now)) }
{
    text.extend_from_slice(verb)?;
    for number in numbers {
        write_number(text, *number)?;
    }
    Ok(())
}
