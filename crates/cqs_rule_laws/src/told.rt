//! What each step tells. These types are for the proofs alone.

ghost use Rattle.cqs_rule_laws.specs.Alone.{and_alone};

use crate::client::ClientWords;
use crate::view::View;
use atomic_table::Play;
use std::marker::PhantomData;

/// What a step tells its pass.
pub trait Telling<C: ClientWords> {
    ghost use Rattle.std.specs.Prelude.{ℕ, Option};
    ghost use Rattle.atomic_table.specs.Table.{Me, Step};
    ghost use Rattle.cqs_rule_laws.specs.declared.view.View.{View};

    // Of the step, the seat before, the word found and the seat after.
    ghost told: { Step (Option C.Slot) → Me (Option C.Slot) (View C.Entry C.Slot) → ℕ
        → Me (Option C.Slot) (View C.Entry C.Slot) → Type 0 };
}

/// The same, and what every step tells a pass that is alone.
pub struct Told<C, T> {
    of: PhantomData<(C, T)>,
}

impl<C: ClientWords, T: Telling<C>> Play<Option<C::Slot>, View<C::Entry, C::Slot>> for Told<C, T> {
    ghost then = { and_alone C.primitive T.told };
}
