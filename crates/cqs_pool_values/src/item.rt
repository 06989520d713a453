//! What a caller has of a pool of values.

use cqs_pool::Element;

/// An element of the pool with its value, and the right to put it back. An item that is dropped is
/// lost to the pool.
#[derive(Drop)]
pub struct Item<T> {
    pub(crate) value: T,
    pub(crate) element: Element,
}

impl<T> Item<T> {
    ghost use Rattle.std.specs.Prelude.{◌≡◌};
    ghost use Rattle.std.specs.Borrow.{sem};
    ghost use Rattle.cqs_pool_values.specs.Items.{value_of, number_of, lends_value};

    /// The number of its element: the place of its opening value.
    pub fn number(&self) -> u32
        ensures { result ≡ number_of self.now }
    {
        self.element.number()
    }

    /// The value.
    pub fn get(&self) -> &T
        ensures { result.now ≡ value_of self.now }
    {
        &self.value
    }

    /// The value, to be changed.
    pub fn get_mut(&mut self) -> &mut T
        ensures* writes_back { sem 𝓛 (lends_value T.row self.entry result) }
        ensures value { result.now ≡ value_of self.old }
    {
        &mut self.value
    }
}
