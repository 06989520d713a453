//! The laws of the barrier: what holds of every legal history, whatever machine it comes from.
//!
//! Each function does nothing: a law is proved where the contract of a function says it.

ghost use Rattle.cqs_barrier_object.specs.BarrierLaws.{EveryLegalHistoryIsBalanced, NobodyGoesThroughBeforeTheLast, TheLastIsTheLast};

/// Until the last has arrived, the parties still to come, those that withdrew among them, and those
/// that wait are all the parties, and nothing is on its way to those who wait. From then on as many
/// resumptions are on their way as wait.
pub fn parties_are_conserved()
    ensures { EveryLegalHistoryIsBalanced }
{}

/// No party goes through, served or told that it stays, before the last has arrived.
pub fn nobody_goes_through_before_the_last()
    ensures { NobodyGoesThroughBeforeTheLast }
{}

/// Once the last has arrived, no party arrives or withdraws.
pub fn the_last_is_the_last()
    ensures { TheLastIsTheLast }
{}
