//! Texts of a plan, as they are shown.

use std::fmt;

/// How many characters of a text are shown.
const SHOWN: usize = 48;

/// A text of a plan in quotes. What isn't printed is shown as `?`, and a long text is cut.
#[derive(Clone, Copy)]
pub struct Quoted<'a> {
    pub text: &'a str,
}

impl fmt::Display for Quoted<'_> {
    fn fmt<W: fmt::Write>(&self, f: &mut fmt::Formatter<W>) -> fmt::Result {
        f.write_str("\"")?;
        for sign in self.text.chars().take(SHOWN) {
            f.write_char(if sign.is_control() { '?' } else { sign })?;
        }
        if self.text.chars().nth(SHOWN).is_some() {
            f.write_str("..")?;
        }
        f.write_str("\"")
    }
}
