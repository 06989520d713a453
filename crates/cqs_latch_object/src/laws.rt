//! The laws of the count-down latch.
//!
//! Each function does nothing: a law is proved where the contract of a function says it.

ghost use Rattle.cqs_latch_object.specs.LatchLaws.{EveryCountIsHigh, EveryCountIsKept, EveryCountIsLow, EveryLegalHistoryIsBalanced, NobodyComesPastEarly, WaitersAreFew};
ghost use Rattle.cqs_latch_object.specs.LatchRuns.{EveryRunIsLegal};
ghost use Rattle.cqs_latch_object.specs.LatchSteps.{EveryStepKeepsTheLatch};
ghost use Rattle.cqs_latch_object.specs.LatchWords.{EveryWordStepKeepsTheLatch};

/// On every run, however its steps and passes mix, a latch shows the plain latch, in both modes.
///
/// From a latch as it is made, whatever steps of the queue and of its words follow one another, by
/// whichever passes: the history of every latch on the way is a legal history of the plain one,
/// and the words, the cells and the passes stand for the plain latch after that history.
pub fn every_run_is_legal()
    ensures { EveryRunIsLegal }
{}

/// Each step of the queue that a latch of this mode makes, wherever it may be made, leads from
/// latch to latch, and appends its entries.
pub fn queue_steps_keep_the_latch()
    ensures { EveryStepKeepsTheLatch }
{}

/// So does each step on its words.
pub fn word_steps_keep_the_latch()
    ensures { EveryWordStepKeepsTheLatch }
{}

/// A latch is open only where its count is used up. Then a resumption is on its way for each who
/// waits and, in simple mode, for each number whose caller left; before, none is.
pub fn opening_resumes_all_who_wait()
    ensures { EveryLegalHistoryIsBalanced }
{}

/// What is left of the count and how often it was counted down are together what it opened with.
/// Before it was counted down that often it doesn't open, nobody passes, and no wait is served.
pub fn nobody_comes_past_early()
    ensures kept { EveryCountIsKept }
    ensures early { NobodyComesPastEarly }
{}

/// The count word of 32 passes at most stays from -32 up to what the latch opened with.
pub fn the_count_stays_in_range()
    ensures high { EveryCountIsHigh }
    ensures low { EveryCountIsLow }
{}

/// The waiters' word counts no more than the numbers drawn and the passes together, so no bit far
/// above them is ever reached.
pub fn waiters_are_few()
    ensures { WaitersAreFew }
{}
