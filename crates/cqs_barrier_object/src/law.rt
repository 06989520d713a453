//! The laws of what a barrier's words, cells and passes stand for: each step leads from one that
//! shows the object after its history to one that does.
//!
//! Each function does nothing: a law is proved where the contract of a function says it.

ghost use Rattle.cqs_barrier_object.specs.BarrierSteps.{EveryArrivalKeepsTheBarrier, EveryBarrierOpens, EveryHandoverKeepsTheBarrier, EveryStayKeepsTheBarrier, EveryStepKeepsTheBarrier, EveryWithdrawalKeepsTheBarrier, NothingIsLeftToAWithdrawer, TheLastArrivalKeepsTheBarrier};

/// A barrier opens with all its parties at the first pass.
pub fn barriers_open()
    ensures { EveryBarrierOpens }
{}

/// Each step of the queue that a barrier's passes make, wherever it may be made, leads from barrier
/// to barrier, and appends its entries.
pub fn queue_steps_keep_the_barrier()
    ensures { EveryStepKeepsTheBarrier }
{}

/// So do an arrival, the last one, which owes a resumption for each of the others, a withdrawal,
/// and the stay of one who wanted to withdraw when all had arrived.
pub fn word_steps_keep_the_barrier()
    ensures arrival { EveryArrivalKeepsTheBarrier }
    ensures last { TheLastArrivalKeepsTheBarrier }
    ensures withdrawal { EveryWithdrawalKeepsTheBarrier }
    ensures staying { EveryStayKeepsTheBarrier }
{}

/// Parties that one idle pass gives to another are still those that haven't arrived.
pub fn handovers_keep_the_barrier()
    ensures { EveryHandoverKeepsTheBarrier }
{}

/// One who withdraws never finds that a value was left to it.
pub fn nothing_is_left_to_a_withdrawer()
    ensures { NothingIsLeftToAWithdrawer }
{}
