//! Texts with a head: the first line has one form, and the lines behind it have another.

ghost use Rattle.std.specs.Prelude.{◌≡◌, ℕ, ◌<◌, ◌^◌, length, IfOk, Err};
ghost use Rattle.cqs_lines.specs.Headed.{IsHeaded, IsFirstBadHeaded};
ghost use Rattle.cqs_lines.specs.declared.forms.LineError.TheVariants.{Bad};

use crate::forms::{Form, LineError, next_item, read_items};
use std::alloc::Global;

/// The item of the head, and those of the lines behind it.
pub fn read_headed<H: Form, F: Form>(
    alloc: Global,
    head_form: &H,
    form: &F,
    text: &[u8],
) -> Result<(H::Item, Vec<F::Item>), LineError>
    requires { length text.now < 2 ^ 32 }
    ensures ok { IfOk result (λ read. IsHeaded H.says (H.fits head_form.now)
        F.says (F.fits form.now) read.0 read.1.items text.now) }
    ensures bad { (n : ℕ) → result ≡ Err (Bad n)
        → IsFirstBadHeaded H.says (H.fits head_form.now) F.says (F.fits form.now) text.now n }
{
    let Some((head, rest)) = next_item(alloc, head_form, text)? else {
        return Err(LineError::Bad(1));
    };
    match read_items(alloc, form, rest, 2) {
        Ok(items) => Ok((head, items)),
        Err(error) => Err(error),
    }
}
