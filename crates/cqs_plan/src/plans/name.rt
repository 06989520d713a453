//! A name: of a resource, a job, or the place of a fault.

ghost use Rattle.std.specs.Prelude.{◌≡◌, List, ℕ};

use std::marker::Model;

/// The bytes of a name, or of the place of a fault. A plan's own names are 1 to 32 ASCII letters,
/// digits, `_` and `-`; a place may quote a name that breaks this rule.
#[derive(Drop)]
pub struct Name {
    bytes: Vec<u8>,
}

impl Model for Name {
    ghost Value = { List ℕ };

    ghost view = { λ name. name.bytes.items };
}

impl From<Vec<u8>> for Name {
    ghost from_gives = { λ bytes name. name ≡ bytes.items };

    fn from(bytes: Vec<u8>) -> Self {
        Name { bytes }
    }
}

impl Name {
    pub fn as_slice(&self) -> &[u8]
        ensures { result.now ≡ self.now }
    {
        self.bytes.as_slice()
    }

    pub fn into_vec(self) -> Vec<u8>
        ensures { result.items ≡ self }
    {
        self.bytes
    }
}
