//! The laws of the turn machine: what holds of every plan's run, whatever the code
//! of the machine looks like.
//!
//! Each function does nothing: a law is proved where the contract of a function says it.
#![tactic(auto)]

ghost use Rattle.cqs_turns_laws.specs.Balances.{EveryResourceBalances, EveryRoundBalances};
ghost use Rattle.cqs_turns_laws.specs.Totals.{TotalsAddUp};
ghost use Rattle.cqs_turns_laws.specs.Events.{EveryReportHasItsLines};
ghost use Rattle.cqs_turns_laws.specs.Stories.{EveryJobHasItsStory};
ghost use Rattle.cqs_turns_laws.specs.Versions.{VersionOneKeepsItsReports};
ghost use Rattle.cqs_turns_laws.specs.Endings.{EndedJobsHaveNothing, NoWaitOutlivesItsDeadline, NoWaitOutlivesItsService, NobodyGivesUpEarly, WhoIsDoneMadeAllSteps};

/// The four totals of a report add up to the number of the plan's jobs.
pub fn totals_add_up()
    ensures { TotalsAddUp }
{}

/// A job that has ended, however it did, waits for nothing and has given back all that it held.
pub fn ended_jobs_have_nothing()
    ensures { EndedJobsHaveNothing }
{}

/// A job that waits when a turn at or after its deadline begins has ended when that turn is over.
pub fn no_wait_outlives_its_deadline()
    ensures { NoWaitOutlivesItsDeadline }
{}

/// A job that waits when a turn begins, and isn't in the line any more, doesn't wait for this any
/// longer when the turn is over.
pub fn no_wait_outlives_its_service()
    ensures { NoWaitOutlivesItsService }
{}

/// The events of a run are lines, one after the other, whose texts are the report so far. The waits
/// of each resource, and of each round of a barrier, are numbered 0, 1, 2 and so on, in order of
/// the lines where they begin, and in a pool the takes that don't wait are counted with them; and a
/// wait is served, or is late, only after a line that sent it a permit or an element, which is the
/// one that it has, that was the last count down of its latch, or the last arrival in its round.
pub fn every_report_has_its_lines()
    ensures { EveryReportHasItsLines }
{}

/// Of each resource, free and held permits or elements are together those that the plan gives it,
/// and nobody waits in line while one is free. A latch counts no more than the plan says, and
/// nobody waits once it is open; and no more rounds of a barrier are over than it has. So it is
/// between any two turns, and in the `end` lines.
pub fn every_resource_balances()
    ensures { EveryResourceBalances }
{}

/// In each round of a barrier those that are still to come and those that wait are all its parties,
/// until the last has come; from then on nobody waits. So it is between any two turns.
pub fn every_round_balances()
    ensures { EveryRoundBalances }
{}

/// The lines are in order of turns and jobs, and those of each job are a story of its steps. Each
/// step but `work` is told once, in order: in the turn of the job's line before it, or as many
/// turns later as it works between them. A step that must wait is told by the line that it waits,
/// and in a later turn, in time, by the one that it is served. A job tries again only before its
/// deadline, where a wait has lasted as long as it may, and no more often than it has retries. It
/// gives up, or is late, only where its deadline has come or a wait has lasted as long as it may,
/// and gives up only where it can't try again. At its end it gives back all that came to it, and
/// only who has made all steps is done. The totals count a job as its story ends; and one that is
/// unfinished still works, or waits: its deadline hasn't come and the wait hasn't lasted longer
/// than it may, or it began to wait in the last turn.
pub fn every_job_has_its_story()
    ensures { EveryJobHasItsStory }
{}

/// The lines of a report tell of no job that it gave up, or was late, where neither its deadline
/// has come nor as many turns have passed as its waits may last.
pub fn nobody_gives_up_early()
    ensures { NobodyGivesUpEarly }
{}

/// A plan whose jobs have neither `within` nor a retry, as those of version 1 do, has the report
/// that the turn machine of version 1 gives it.
pub fn version_one_keeps_its_reports()
    ensures { VersionOneKeepsItsReports }
{}

/// A job that is counted as done has made all its steps: the last of its lines says that it is
/// done, the others tell of each step but `work` once, in order, and then of what it gives back at
/// the end; and the last line's turn is at least the sum of the turns that it works.
pub fn who_is_done_made_all_steps()
    ensures { WhoIsDoneMadeAllSteps }
{}
