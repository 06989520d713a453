//! What follows of a history in which every caller has given back all that it came to.

ghost use Rattle.cqs_work.specs.Even.{EveryEvenSemaphoreIsQuiet, EveryEvenPoolIsQuiet};

/// After a legal history in which each caller gave back what it took, and left or was served where
/// it waited, no permit is held or on its way, and nobody stands at the door or in the line.
pub fn even_semaphores_are_quiet()
    ensures { EveryEvenSemaphoreIsQuiet }
{}

/// The same of a pool: no element is held, and nobody stands in the line.
pub fn even_pools_are_quiet()
    ensures { EveryEvenPoolIsQuiet }
{}
