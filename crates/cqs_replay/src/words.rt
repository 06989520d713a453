//! Words that are known.

ghost use Rattle.std.specs.Prelude.{◌≡◌};
ghost use Rattle.std.specs.Str.{bytes_eq};

/// The verb is this word.
pub fn is(verb: &[u8], word: &str) -> bool
    ensures { result ≡ bytes_eq verb.now word.now }
{
    verb == word.as_bytes()
}
