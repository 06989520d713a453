//! The laws of the core, each as a function whose contract says it and whose body is empty.

ghost use Rattle.cqs_core.specs.SemaphoreRuns.{EveryRunIsLegal};
ghost use Rattle.cqs_core.specs.SemaphoreSteps.{EveryStepKeepsTheCore, EveryStepKeepsTheSyncCore};
ghost use Rattle.cqs_core.specs.SemaphoreCores.{EveryRunOfEitherIsLegal};
ghost use Rattle.cqs_core.specs.BrokenCells.{EveryBrokenCellWasBrokenOnce};

/// On every run, however its events and passes mix, the core shows a fair semaphore.
///
/// From a core as it is made, whatever events the table allows follow one another, by whichever
/// passes, with held permits handed from pass to pass: the history of every core on the way is a
/// legal history of the plain semaphore with its line of waiters, and the core stands for the
/// semaphore after that history. This is what it means that the queue's steps are linearizable,
/// without naming any schedule.
pub fn every_run_is_legal()
    ensures { EveryRunIsLegal }
{}

/// The same of synchronous cores beside the others, with the numbers that they break: the history
/// is legal with its entries of broken numbers, and the core stands for the semaphore after it.
pub fn every_run_of_either_is_legal()
    ensures { EveryRunOfEitherIsLegal }
{}

/// On every run, each broken cell fails one resume and one suspend: its number was broken once, and
/// its suspend found it so once where the cell is collected, and never where it isn't.
pub fn broken_cells_were_broken_once()
    ensures { EveryBrokenCellWasBrokenOnce }
{}

/// Each step of the queue that a semaphore makes, wherever it may be made, leads from core to core,
/// and appends its entries.
pub fn semaphore_steps_keep_the_core()
    ensures { EveryStepKeepsTheCore }
{}

/// The same of a synchronous semaphore, whose resumes watch the values that they leave.
pub fn sync_semaphore_steps_keep_the_core()
    ensures { EveryStepKeepsTheSyncCore }
{}
