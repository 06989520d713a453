//! The laws of the pool: what holds of every legal history, and how the queue shows a pool.
//!
//! Each function does nothing: a law is proved where the contract of a function says it.

ghost use Rattle.cqs_pool_object.specs.PoolLaws.{EveryElementIsInOnePlace, EveryPoolOpens, EveryStepKeepsThePool, HandOversKeepThePool, NumbersAreLeft};
ghost use Rattle.cqs_pool_object.specs.PoolOrder.{EveryPoolOpensInOrder, EveryStepKeepsTheOrder, EveryTakerHasTheFirst};

/// After every legal history each element is in exactly one place, once: on its way, or held. And
/// no other number is in either.
pub fn elements_are_conserved()
    ensures { EveryElementIsInOnePlace }
{}

/// A queue that opens with a value in each of its first cells, the number of the cell, shows a pool
/// that opens with these elements.
pub fn pools_open()
    ensures { EveryPoolOpens }
{}

/// Each step of the queue that a pool makes, wherever it may be made, leads from pool to pool, and
/// appends its entries.
pub fn steps_keep_the_pool()
    ensures { EveryStepKeepsThePool }
{}

/// What one idle pass holds may become another's: nothing that the pool shows changes.
pub fn hand_overs_keep_the_pool()
    ensures { HandOversKeepThePool }
{}

/// Where a pass owes a resumption, or is idle and holds an element to put, fewer numbers were drawn
/// to resume at than were drawn to suspend at, wait at the door, or opened with an element.
pub fn numbers_are_left()
    ensures { NumbersAreLeft }
{}

/// The elements of a pool as it opens are on their way in order of their numbers.
pub fn pools_open_in_order()
    ensures { EveryPoolOpensInOrder }
{}

/// As long as one caller alone makes calls, the elements that were left stand in the cells in the
/// order in which they are on their way.
pub fn steps_keep_the_order()
    ensures { EveryStepKeepsTheOrder }
{}

/// And a taker whose cell has an element has the first of them: the first that is free, in the
/// order in which they were put.
pub fn takers_have_the_first()
    ensures { EveryTakerHasTheFirst }
{}
