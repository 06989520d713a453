//! What a pass has several of, which are called by number: the tokens of its waits, and elements.

ghost use Rattle.std.specs.Prelude.{◌≡◌, ◌≢◌, ◌<◌, All, IfSome, None, OnSome, vec_len, vec_capacity};
ghost use Rattle.cqs_c_callers.specs.Tokens.{IsAt, IsTaken};

use cqs_barrier::PartyWait;
use cqs_pool::Element;
use cqs_rule::Wait;

/// Something that has a number.
pub trait Token: Drop {
    ghost use Rattle.std.specs.Prelude.{◌≡◌, ℕ};

    ghost index: { Self → ℕ };

    /// Its number.
    fn index(&self) -> u64
        ensures { result ≡ index self.now };
}

impl Token for Wait {
    ghost use Rattle.cqs_c_callers.specs.Tokens.{wait_index};

    ghost index = { wait_index };

    fn index(&self) -> u64 {
        self.number()
    }
}

impl Token for PartyWait {
    ghost use Rattle.cqs_barrier.specs.Waits.{wait_in};
    ghost use Rattle.cqs_c_callers.specs.Tokens.{wait_index};

    ghost index = { λ x. wait_index (wait_in x) };

    fn index(&self) -> u64 {
        self.number()
    }
}

impl Token for Element {
    ghost use Rattle.cqs_pool.specs.Elements.{number_of};

    ghost index = { number_of };

    fn index(&self) -> u64 {
        u64::from(self.number())
    }
}

// Where the one of this number stands, if there is one.
fn place<T: Token>(tokens: &[T], number: u64) -> Option<usize>
    ensures found { IfSome result (λ i. IsAt T.index number tokens.now i) }
    ensures none { result ≡ None → All (λ token. T.index token ≢ number) tokens.now }
{
    for i in 0..tokens.len() {
        if tokens[i].index() == number {
            return Some(i);
        }
    }
    None
}

/// Takes the one of this number out, if there is one. There is room for it again then.
pub fn take_out<T: Token>(tokens: &mut Vec<T>, number: u64) -> Option<T>
    ensures taken { IfSome result (λ token. IsTaken T.index number tokens.old.items token
        tokens.new.items) }
    ensures room { OnSome result (vec_len tokens.new < vec_capacity tokens.new) }
    ensures none { result ≡ None → (tokens.new ≡ tokens.old)
        × All (λ token. T.index token ≢ number) tokens.old.items }
{
    let i = place(tokens.as_slice(), number)?;
    Some(tokens.remove(i))
}
