//! The running rule of a table.

use crate::client::ClientWords;
use crate::view::View;
use atomic_table::TableRule;
use std::marker::PhantomData;

/// What the table is told once.
#[derive(Drop)]
pub struct Key<C> {
    pub passes: u64,
    pub limit: u64,
    /// How many slots for segments.
    pub slots: u64,
    /// How many segments are made as the table opens.
    pub made: u64,
    pub client: C,
}

/// The rule of a client's table.
pub struct Rule<C> {
    client: PhantomData<C>,
}

impl<C: ClientWords> TableRule<Option<C::Slot>, View<C::Entry, C::Slot>, Key<C>> for Rule<C> {
    ghost use Rattle.cqs_rule_laws.specs.Ruled.{Ruled, cell_count};
    ghost use Rattle.cqs_rule_laws.specs.Views.{first_view};

    ghost holds = { λ key. Ruled C.object (C.primitive key.client) key.passes key.limit };

    ghost first = { λ key. first_view key.passes key.limit
        (cell_count key.passes key.limit (C.primitive key.client).values) key.slots key.made
        (C.primitive key.client).opening (C.primitive key.client).held };
}
