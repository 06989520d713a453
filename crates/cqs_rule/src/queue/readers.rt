//! The readers of a queue.

ghost use Rattle.std.specs.Prelude.{◌≡◌};
ghost use Rattle.cqs_rule.specs.Passes.{limit_of, looks_of};

use crate::queue::Queue;
use cqs_rule_laws::ClientWords;

impl<C: ClientWords> Queue<C> {
    /// The limit of the suspend counter: a pass draws a number only if it saw the counter below
    /// this.
    #[inline]
    pub fn limit(&self) -> u64
        ensures { result ≡ limit_of self.now }
    {
        self.limit
    }

    /// How often a resume looks at the value that it left, before it breaks the cell: in a
    /// synchronous queue; else none.
    #[inline]
    pub fn looks(&self) -> u32
        ensures { result ≡ looks_of self.now }
    {
        self.looks
    }
}
