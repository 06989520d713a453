//! How C gives a primitive back.

ghost use Rattle.std.specs.Borrow.{sem, full_share};
ghost use Rattle.std.specs.Ptr.{if_non_null, lies_at, room_at};
ghost use denote.RawPtr.{Testable};
ghost use Rattle.cqs_c_numbers.specs.contracts.numbered.Numbered.{the_row};
ghost use Rattle.cqs_c_numbers.specs.declared.numbered.Numbered.{Numbered as Primitive};

use cqs_c_numbers::Numbered;

pub(crate) fn let_go(primitive: Numbered) {
    drop(primitive);
}

/// Drops the primitive, with all that its passes hold. C frees its block.
#[unsafe(no_mangle)]
pub unsafe extern "C" fn cqs_end(at: *mut u8)
    ghost primitive: { Primitive }
    requires testable { Testable at }
    requires* memory { sem 𝓛 (if_non_null at (lies_at the_row full_share at primitive)) }
    ensures* room { sem 𝓛 (if_non_null at (room_at the_row at)) }
{
    if at.is_null() {
        return;
    }
    let_go((at as *mut Numbered).read());
}
