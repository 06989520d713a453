//! An element of a pool, as its holder has it.

ghost use Rattle.std.specs.Prelude.{◌≡◌, ◌<◌, ◌^◌};

/// An element that a caller has. It is neither copied nor cloned; one that is dropped is lost to
/// the pool.
#[derive(Drop)]
pub struct Element {
    pub(crate) number: u32,
    pub(crate) wait: u64,
    ghost fits: { number < 2 ^ 20 },
}

impl Element {
    ghost use Rattle.cqs_pool.specs.Elements.{number_of};

    /// The number of the element: below the pool's size, and the same as long as there is the pool.
    pub fn number(&self) -> u32
        ensures { result ≡ number_of self.now }
    {
        self.number
    }
}
