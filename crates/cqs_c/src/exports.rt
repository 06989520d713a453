//! What C calls with the pointer to a primitive.
//!
//! For a while, the lifetime κ, the primitive is lent to all its callers; the export asks for its
//! part of that while, which ends when all callers have given their parts back.

ghost use Rattle.std.specs.Prelude.{◌≡◌};
ghost use Rattle.std.specs.Borrow.{sem, Share, lent_at};
ghost use Rattle.std.specs.Ptr.{if_non_null};
ghost use base.Fml.{Lft, flft};
ghost use denote.RawPtr.{Testable};
ghost use Rattle.cqs_c_numbers.specs.contracts.numbered.Numbered.{the_row};
ghost use Rattle.cqs_c_numbers.specs.declared.numbered.Numbered.{Numbered as Primitive};
ghost use Rattle.cqs_c.specs.Answers.{Answers};
ghost use Rattle.cqs_c.specs.Calls.{IsCalled};

use crate::answers::{CqsAnswer, nowhere};
use crate::calls;
use cqs_c_numbers::Numbered;

/// One call: which it is, the pass, and the number that it is given beside that: of a wait, or of a
/// given pass.
#[unsafe(no_mangle)]
pub unsafe extern "C" fn cqs_call(at: *const u8, verb: u32, pass: u32, number: u64) -> CqsAnswer
    ghost g: { Primitive × Lft × Share }
    requires testable { Testable at }
    requires* lent { sem 𝓛 (if_non_null at (lent_at the_row at g.0 g.1)) ∗ sem 𝓛 (flft g.1 g.2) }
    ensures* back { sem 𝓛 (flft g.1 g.2) }
    ensures answers { Answers at (IsCalled g.0 verb pass number) result }
{
    if at.is_null() {
        return nowhere();
    }
    calls::call(&*(at as *const Numbered), verb, pass, number)
}
