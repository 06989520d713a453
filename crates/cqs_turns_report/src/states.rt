//! How far the jobs are.

ghost use Rattle.std.specs.Prelude.{◌≡◌};
ghost use Rattle.cqs_turns_report.specs.Lines.{is_done, has_given_up, is_late, is_unfinished};
ghost use Rattle.cqs_turns_report.specs.Machine.{rests};

/// How a job ended.
#[derive(Clone, Copy)]
pub enum End {
    /// It made all its steps.
    Done,
    /// A wait of it wasn't served in time, and it had no retry left, or its deadline had come.
    GaveUp,
    /// A wait of it was served, but it looked only when its time was over.
    Late,
    /// A call of it was turned away. A floor of this crate's machine turns nobody away.
    Crowded,
}

/// How far a job is. `next` is the place of the step that it makes next.
#[derive(Clone, Copy)]
pub enum Progress {
    /// It has just begun.
    Stepping(u32),
    /// It works until this turn.
    Working {
        next: u32,
        until: u32,
    },
    /// It waits for the resource at this place, in this round where that is a barrier, under this
    /// number. What isn't a barrier has the round 0.
    Waiting {
        next: u32,
        at: u32,
        round: u32,
        number: u64,
    },
    Ended(End),
}

/// What the patience of a job rests on.
#[derive(Clone, Copy)]
pub struct Patience {
    /// The turn in which it last moved: of a job that waits the one in which this wait began.
    pub since: u32,
    /// How many retries it has used up.
    pub used: u32,
}

/// What the machine keeps of a job.
#[derive(Drop)]
pub struct JobState {
    pub progress: Progress,
    pub patience: Patience,
    /// The places of what the job holds, oldest first: what it gives back at its end.
    pub held: Vec<u32>,
}

impl Progress {
    /// The job does nothing in this turn: it has ended, or it still works.
    pub fn rests(&self, turn: u32) -> bool
        ensures { result ≡ rests turn self.now }
    {
        match self {
            Progress::Ended(_) => true,
            Progress::Working { until, .. } => turn < *until,
            Progress::Stepping(_) | Progress::Waiting { .. } => false,
        }
    }

    pub fn is_done(self) -> bool
        ensures { result ≡ is_done self }
    {
        matches!(self, Progress::Ended(End::Done))
    }

    pub fn has_given_up(self) -> bool
        ensures { result ≡ has_given_up self }
    {
        matches!(self, Progress::Ended(End::GaveUp))
    }

    pub fn is_late(self) -> bool
        ensures { result ≡ is_late self }
    {
        matches!(self, Progress::Ended(End::Late))
    }

    pub fn is_unfinished(self) -> bool
        ensures { result ≡ is_unfinished self }
    {
        !matches!(self, Progress::Ended(_))
    }
}
