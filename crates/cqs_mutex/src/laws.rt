//! The law of the values of a mutex.
//!
//! The function does nothing: a law is proved where the contract of a function says it.

ghost use Rattle.cqs_mutex.specs.Values.{GuardsGetTheLastUnlocked};

/// A guard has the value of the last unlock before it in the history.
pub fn guards_get_the_last_unlocked<T: Drop>()
    ensures { GuardsGetTheLastUnlocked T }
{}
