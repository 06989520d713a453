//! Which words belong to a slot.

ghost use Rattle.std.specs.Prelude.{◌≡◌, ◌<◌, ◌≤◌, ◌^◌};
ghost use Rattle.cqs_slots.specs.Layout.{count_place, head_place, link_place, slot_cell};

use cqs_rule_laws::{SLOT_CELLS, SLOT_COUNT, SLOT_LINK, SLOT_STRIDE, SLOTS_WORD};

// The word of its head.
#[inline]
pub(crate) fn head_at(slot: u32) -> u32
    requires { slot ≤ 2 ^ 26 }
    ensures { result ≡ head_place slot }
{
    SLOT_STRIDE as u32 * slot + SLOTS_WORD
}

// The word of its link.
#[inline]
pub(crate) fn link_at(slot: u32) -> u32
    requires { slot ≤ 2 ^ 26 }
    ensures { result ≡ link_place slot }
{
    head_at(slot) + SLOT_LINK as u32
}

// The word of the number of its cells that were counted.
#[inline]
pub(crate) fn count_at(slot: u32) -> u32
    requires { slot ≤ 2 ^ 26 }
    ensures { result ≡ count_place slot }
{
    head_at(slot) + SLOT_COUNT as u32
}

// The word of one of its cells.
#[inline]
pub(crate) fn cell_at(slot: u32, cell: u32) -> u32
    requires slot { slot ≤ 2 ^ 26 }
    requires cell { cell < 32 }
    ensures { result ≡ slot_cell slot cell }
{
    head_at(slot) + SLOT_CELLS as u32 + cell
}
