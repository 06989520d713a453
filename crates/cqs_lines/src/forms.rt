//! Texts whose lines have one form each.

ghost use Rattle.std.specs.Prelude.{◌≡◌, ◌≢◌, ◌+◌, ◌<◌, ◌^◌, ℕ, List, length, IfOk, IfSome, MatchOption, Err};
ghost use Rattle.cqs_lines.specs.Said.{Said, said, said_text, line_text, IsLine};
ghost use Rattle.cqs_lines.specs.Forms.{AreItems, IsFirstBad};
ghost use Rattle.cqs_lines.specs.declared.forms.LineError.TheVariants.{Memory, Bad};

use crate::cuts::cut;
use crate::said::hear;
use std::alloc::{AllocError, AllocFailed, Global};

/// Why a text isn't read.
#[derive(Clone, Copy, PartialEq, Eq, Debug)]
pub enum LineError {
    Memory,
    /// This line is the first that breaks the form.
    Bad(u32),
}

impl From<AllocError> for LineError {
    ghost use Rattle.std.specs.Prelude.{◌≡◌};
    ghost use Rattle.cqs_lines.specs.declared.forms.LineError.TheVariants.{Memory};

    ghost from_gives = { λ _ e. e ≡ Memory };

    fn from(_error: AllocError) -> Self {
        LineError::Memory
    }
}

impl<T: Drop> From<AllocFailed<T>> for LineError {
    ghost use Rattle.std.specs.Prelude.{◌≡◌};
    ghost use Rattle.cqs_lines.specs.declared.forms.LineError.TheVariants.{Memory};

    ghost from_gives = { λ _ e. e ≡ Memory };

    fn from(_error: AllocFailed<T>) -> Self {
        LineError::Memory
    }
}

/// What the lines of a text may say.
pub trait Form {
    type Item: Drop;

    ghost says: { Self.Item → Said };

    ghost fits: { Self → Self.Item → Type 0 };

    /// The item that a line says, if it says one.
    fn item(&self, verb: &[u8], numbers: &[u64]) -> Option<Self::Item>
        ensures { MatchOption result
            ((i : Self.Item) → fits self.now i → says i ≢ said verb.now numbers.now)
            (λ i. fits self.now i × (says i ≡ said verb.now numbers.now)) };

    ghost clean: { (form : Self) (i : Self.Item) → fits form i → IsLine (says i) };
}

/// The item of one line.
fn line_item<F: Form>(alloc: Global, form: &F, line: &[u8]) -> Result<Option<F::Item>, AllocError>
    ensures { IfOk result (λ heard. MatchOption heard
        ((i : F.Item) → F.fits form.now i → line.now ≢ said_text (F.says i))
        (λ i. F.fits form.now i × (line.now ≡ said_text (F.says i)))) }
{
    match hear(alloc, line)? {
        Some(heard) => Ok(form.item(heard.verb, heard.numbers.as_slice())),
        None => Ok(None),
    }
}

/// The item of the first line, and the lines behind it.
pub fn next_item<'a, F: Form>(
    alloc: Global,
    form: &F,
    text: &'a [u8],
) -> Result<Option<(F::Item, &'a [u8])>, AllocError>
    ensures { IfOk result (λ next. MatchOption next
        ((i : F.Item) (more : List ℕ) → F.fits form.now i → text.now ≢ line_text (F.says i) more)
        (λ r. F.fits form.now r.0 × (text.now ≡ line_text (F.says r.0) r.1.now))) }
{
    let Some((line, after)) = cut(text, b'\n') else {
        return Ok(None);
    };
    match line_item(alloc, form, line)? {
        Some(item) => Ok(Some((item, after))),
        None => Ok(None),
    }
}

/// All items of a text whose first line has this number.
pub fn read_items<F: Form>(
    alloc: Global,
    form: &F,
    text: &[u8],
    first: u32,
) -> Result<Vec<F::Item>, LineError>
    requires { first + length text.now < 2 ^ 32 }
    ensures ok { IfOk result (λ items. AreItems F.says (F.fits form.now) items.items text.now) }
    ensures bad { (n : ℕ) → result ≡ Err (Bad n)
        → IsFirstBad F.says (F.fits form.now) text.now first n }
{
    let mut items = Vec::new(alloc);
    let mut rest = text;
    let mut place = first;
    'lines: while !rest.is_empty() {
        match next_item(alloc, form, rest)? {
            Some((item, after)) => {
                items.push(item)?;
                rest = after;
                place += 1;
            }
            None => return Err(LineError::Bad(place)),
        }
    }
    Ok(items)
}
