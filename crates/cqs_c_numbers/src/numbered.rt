//! A primitive with its passes, which are called by number.

ghost use Rattle.std.specs.Prelude.{◌≡◌, ◌+◌, ◌*◌, ◌≤◌};

use crate::marks::Slots;
use crate::primitive::Primitive;
use std::alloc::Global;

/// A primitive whose passes are called by number.
#[derive(Drop)]
pub struct Numbered {
    pub(crate) primitive: Primitive,
    pub(crate) table: Slots,
    pub(crate) passes: u32,
    pub(crate) room: u32,
    pub(crate) alloc: Global,
    pub ghost key_is: { table.shared.key ≡ primitive },
    pub ghost words_are: { table.shared.table_id.words ≡ 16 * passes + 16 },
    pub ghost slots_are: { table.shared.table_id.slots ≡ passes },
    pub ghost few: { passes ≤ 32 },
}
