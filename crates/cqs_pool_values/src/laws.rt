//! The law of the values of a pool of values.
//!
//! The function does nothing: a law is proved where the contract of a function says it.

ghost use Rattle.cqs_pool_values.specs.Values.{ItemsGetTheLastPut};

/// An item has the value of the last put of its number before it in the history.
pub fn items_get_the_last_put<T: Drop>()
    ensures { ItemsGetTheLastPut T }
{}
