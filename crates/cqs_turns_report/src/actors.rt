//! Who acts, and what each event tells.

ghost use Rattle.std.specs.Prelude.{◌≡◌, ◌≤◌, ◌++◌, length, OnOk, OnErr};
ghost use Rattle.cqs_turns_report.specs.Lines.{line_text};
ghost use Rattle.std.specs.Prelude.{count_by, take};
ghost use Rattle.cqs_plan.specs.Language.{can_hold};
ghost use Rattle.cqs_plan.specs.PlanSteps.{is_arrival};
ghost use Rattle.cqs_turns_report.specs.Roles.{is_holdable_at, role};
ghost use Rattle.cqs_turns_report.specs.Turns.{take_told, give_told, leave_told, down_told, wait_told, arrive_told, is_due, is_outwaited, is_over_time, may_retry};

use crate::lines::Told;
use crate::reports::Report;
use crate::states::Patience;
use cqs_core::Memory;
use cqs_plan::{FloorDown, FloorGive, FloorLeave, FloorTake, Job, Kind, Resource, Step};

/// A job in a turn.
#[derive(Clone, Copy)]
pub struct Actor<'a> {
    pub resources: &'a [Resource],
    pub turn: u32,
    /// The job's place among the plan's jobs.
    pub place: u32,
    pub job: &'a Job,
}

fn can_hold(kind: Kind) -> bool
    ensures { result ≡ can_hold kind }
{
    match kind {
        Kind::Semaphore(_) | Kind::Mutex | Kind::Pool(_) => true,
        Kind::Latch(_) | Kind::Rounds { .. } => false,
    }
}

impl Actor<'_> {
    /// The job's deadline has come.
    pub fn is_due(&self) -> bool
        ensures { result ≡ is_due self.now.job.now.deadline self.now.turn }
    {
        match self.job.deadline {
            Some(deadline) => deadline <= self.turn,
            None => false,
        }
    }

    /// The job, which waits, has waited for as many turns as it may.
    fn is_outwaited(&self, patience: Patience) -> bool
        ensures { result ≡ is_outwaited (role self.now) patience }
    {
        match self.job.within {
            Some(within) => {
                u64::from(patience.since) + u64::from(within) <= u64::from(self.turn)
            }
            None => false,
        }
    }

    /// The job, which waits, is over time.
    pub fn is_over_time(&self, patience: Patience) -> bool
        ensures { result ≡ is_over_time (role self.now) patience }
    {
        self.is_due() || self.is_outwaited(patience)
    }

    /// The job has a retry left, and its deadline hasn't come.
    pub fn may_retry(&self, patience: Patience) -> bool
        ensures { result ≡ may_retry (role self.now) patience }
    {
        !self.is_due() && patience.used < self.job.retry
    }

    /// The resource at a place can be taken and given.
    pub fn can_hold(&self, at: u32) -> bool
        ensures { result ≡ is_holdable_at self.now.resources.now at }
    {
        match self.resources.get(at as usize) {
            Some(resource) => can_hold(resource.kind),
            None => false,
        }
    }

    /// How often the job arrives at a barrier before a step.
    pub fn arrivals(&self, next: u32, at: u32) -> u32
        requires { length self.now.job.now.steps ≤ 64 }
        ensures { result ≡ count_by (is_arrival at) (take next self.now.job.now.steps) }
    {
        let steps = self.job.steps.as_slice();
        let made = steps.len().min(next as usize);
        steps[..made]
            .iter()
            .filter(|step| matches!(step, Step::Arrive(place) if *place == at))
            .count() as u32
    }

    /// Adds the line of an event of this job.
    pub fn tell(&self, report: &mut Report, told: Told) -> Result<(), Memory>
        ensures ok { OnOk result (report.new ≡ report.old ++
            line_text self.now.resources.now self.now.turn self.now.job.now.name told) }
        ensures err { OnErr result (report.new ≡ report.old) }
    {
        report.tell(self.resources, self.turn, self.job.name.as_slice(), told)
    }
}

/// What the answer to a take tells.
pub fn told_of_take(at: u32, answer: FloorTake) -> Told
    ensures { result ≡ take_told at answer }
{
    match answer {
        FloorTake::Now(element) => Told::Takes { at, element },
        FloorTake::Waits(number) => Told::Waits {
            at,
            round: 0,
            number,
        },
    }
}

/// What the answer to a count down tells.
pub fn told_of_down(at: u32, answer: FloorDown) -> Told
    ensures { result ≡ down_told at answer }
{
    match answer {
        FloorDown::Left(left) => Told::DownsLeft { at, left },
        FloorDown::Last => Told::DownsOpen { at },
        FloorDown::Already => Told::DownsAlready { at },
    }
}

/// What the answer to a wait at a latch tells.
pub fn told_of_wait(at: u32, answer: FloorTake) -> Told
    ensures { result ≡ wait_told at answer }
{
    match answer {
        FloorTake::Now(_) => Told::Passes { at },
        FloorTake::Waits(number) => Told::Waits {
            at,
            round: 0,
            number,
        },
    }
}

/// What the answer to an arrival in a round tells.
pub fn told_of_arrival(at: u32, round: u32, answer: FloorTake) -> Told
    ensures { result ≡ arrive_told at round answer }
{
    match answer {
        FloorTake::Now(_) => Told::ArrivesLast { at, round },
        FloorTake::Waits(number) => Told::Waits { at, round, number },
    }
}

/// What the answer to a give tells.
pub fn told_of_give(at: u32, answer: FloorGive) -> Told
    ensures { result ≡ give_told at answer }
{
    match answer {
        FloorGive::Free(element) => Told::GivesFree { at, element },
        FloorGive::Sent(element, number) => Told::GivesSent {
            at,
            element,
            number,
        },
    }
}

/// What the answer to the leave of a wait tells.
pub fn told_of_leave(at: u32, round: u32, number: u64, answer: FloorLeave) -> Told
    ensures { result ≡ leave_told at round number answer }
{
    match answer {
        FloorLeave::Gone => Told::GaveUp { at, round, number },
        FloorLeave::Late(_) => Told::Late { at, round, number },
    }
}
