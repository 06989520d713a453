//! How often each answer came.

ghost use Rattle.std.specs.Prelude.{◌≡◌, ◌+◌};
ghost use Rattle.cqs_semaphore_crew.specs.Tallies.{count_of, nothing_yet, TellsBut};
ghost use Rattle.cqs_semaphore_crew.specs.Sums.{acquires_of, both_acquires, both_cancels, both_counts, both_polls, both_releases, both_tries, no_counts, tries_of, CountsRounds};

use std::fmt;

/// The answers to `acquire`.
#[derive(Clone, Copy, Default)]
pub struct Acquires {
    /// A permit was free.
    pub free: u64,
    /// A permit had been left in the cell of the number that was drawn.
    pub took: u64,
    /// The caller waited.
    pub waited: u64,
    /// As many numbers had been drawn as the limit allows.
    pub worn: u64,
    /// No slot was free.
    pub crowded: u64,
}

/// The answers to `try_acquire`.
#[derive(Clone, Copy, Default)]
pub struct Tries {
    pub got: u64,
    pub busy: u64,
    pub contended: u64,
}

/// The answers to `release` and `finish`.
#[derive(Clone, Copy, Default)]
pub struct Releases {
    pub freed: u64,
    pub sent: u64,
    /// Left for a caller who was about to wait, or who was leaving.
    pub left: u64,
    /// The waiter had left, and the permit is free.
    pub void: u64,
    /// Handed back, to be finished.
    pub under: u64,
}

/// The answers to `poll`.
#[derive(Clone, Copy, Default)]
pub struct Polls {
    pub granted: u64,
    pub pending: u64,
}

/// The answers to `cancel`.
#[derive(Clone, Copy, Default)]
pub struct Cancels {
    /// The wait is over, and nothing is owed.
    pub cancelled: u64,
    /// The wait is over, and a permit that was left to it is still on its way.
    pub owing: u64,
    pub too_late: u64,
}

/// How often each answer came.
#[derive(Clone, Copy, Default)]
pub struct Counts {
    pub acquires: Acquires,
    pub tries: Tries,
    pub releases: Releases,
    pub polls: Polls,
    pub cancels: Cancels,
}

/// Nothing has come yet.
pub(crate) fn none_yet() -> Counts
    ensures tells { TellsBut 0 nothing_yet result }
    ensures none { CountsRounds 0 result }
    ensures is { result ≡ no_counts }
{
    Counts {
        acquires: Acquires {
            free: 0,
            took: 0,
            waited: 0,
            worn: 0,
            crowded: 0,
        },
        tries: Tries {
            got: 0,
            busy: 0,
            contended: 0,
        },
        releases: Releases {
            freed: 0,
            sent: 0,
            left: 0,
            void: 0,
            under: 0,
        },
        polls: Polls {
            granted: 0,
            pending: 0,
        },
        cancels: Cancels {
            cancelled: 0,
            owing: 0,
            too_late: 0,
        },
    }
}

/// Counts one more. A count that is full stays so.
pub(crate) fn count(answers: &mut u64)
    ensures { answers.new ≡ count_of (answers.old + 1) }
{
    *answers = answers.saturating_add(1);
}

impl Counts {
    /// The counts of both.
    pub fn with(self, other: Counts) -> Counts
        ensures { result ≡ both_counts self other }
    {
        Counts {
            acquires: self.acquires.with(other.acquires),
            tries: self.tries.with(other.tries),
            releases: self.releases.with(other.releases),
            polls: self.polls.with(other.polls),
            cancels: self.cancels.with(other.cancels),
        }
    }

    /// How many permits came.
    pub fn came(&self) -> u64
        ensures { result ≡ count_of (self.now.acquires.free + self.now.acquires.took
            + self.now.tries.got + self.now.polls.granted + self.now.cancels.too_late) }
    {
        self.acquires
            .free
            .saturating_add(self.acquires.took)
            .saturating_add(self.tries.got)
            .saturating_add(self.polls.granted)
            .saturating_add(self.cancels.too_late)
    }

    /// How many permits arrived where they were sent, or are free again.
    pub fn arrivals(&self) -> u64
        ensures { result ≡ count_of (self.now.releases.freed + self.now.releases.sent
            + self.now.releases.left + self.now.releases.void) }
    {
        self.releases
            .freed
            .saturating_add(self.releases.sent)
            .saturating_add(self.releases.left)
            .saturating_add(self.releases.void)
    }

    /// How many waits have ended.
    pub fn ends(&self) -> u64
        ensures { result ≡ count_of (self.now.polls.granted + self.now.cancels.cancelled
            + self.now.cancels.owing + self.now.cancels.too_late) }
    {
        self.polls
            .granted
            .saturating_add(self.cancels.cancelled)
            .saturating_add(self.cancels.owing)
            .saturating_add(self.cancels.too_late)
    }
}

impl Acquires {
    /// How many calls there were.
    pub fn total(&self) -> u64
        ensures { result ≡ count_of (acquires_of self.now) }
    {
        self.free
            .saturating_add(self.took)
            .saturating_add(self.waited)
            .saturating_add(self.worn)
            .saturating_add(self.crowded)
    }

    fn with(self, other: Acquires) -> Acquires
        ensures { result ≡ both_acquires self other }
    {
        Acquires {
            free: self.free.saturating_add(other.free),
            took: self.took.saturating_add(other.took),
            waited: self.waited.saturating_add(other.waited),
            worn: self.worn.saturating_add(other.worn),
            crowded: self.crowded.saturating_add(other.crowded),
        }
    }
}

impl Tries {
    /// How many calls there were.
    pub fn total(&self) -> u64
        ensures { result ≡ count_of (tries_of self.now) }
    {
        self.got
            .saturating_add(self.busy)
            .saturating_add(self.contended)
    }

    fn with(self, other: Tries) -> Tries
        ensures { result ≡ both_tries self other }
    {
        Tries {
            got: self.got.saturating_add(other.got),
            busy: self.busy.saturating_add(other.busy),
            contended: self.contended.saturating_add(other.contended),
        }
    }
}

impl Releases {
    fn with(self, other: Releases) -> Releases
        ensures { result ≡ both_releases self other }
    {
        Releases {
            freed: self.freed.saturating_add(other.freed),
            sent: self.sent.saturating_add(other.sent),
            left: self.left.saturating_add(other.left),
            void: self.void.saturating_add(other.void),
            under: self.under.saturating_add(other.under),
        }
    }
}

impl Polls {
    fn with(self, other: Polls) -> Polls
        ensures { result ≡ both_polls self other }
    {
        Polls {
            granted: self.granted.saturating_add(other.granted),
            pending: self.pending.saturating_add(other.pending),
        }
    }
}

impl Cancels {
    fn with(self, other: Cancels) -> Cancels
        ensures { result ≡ both_cancels self other }
    {
        Cancels {
            cancelled: self.cancelled.saturating_add(other.cancelled),
            owing: self.owing.saturating_add(other.owing),
            too_late: self.too_late.saturating_add(other.too_late),
        }
    }
}

impl fmt::Display for Counts {
    fn fmt<W: fmt::Write>(&self, f: &mut fmt::Formatter<W>) -> fmt::Result {
        let Counts {
            acquires,
            tries,
            releases,
            polls,
            cancels,
        } = self;
        writeln!(
            f,
            "acquire: {} free, {} took, {} waited, {} worn, {} crowded",
            acquires.free, acquires.took, acquires.waited, acquires.worn, acquires.crowded
        )?;
        writeln!(
            f,
            "try: {} got, {} busy, {} contended",
            tries.got, tries.busy, tries.contended
        )?;
        writeln!(
            f,
            "release: {} freed, {} sent, {} left, {} void, {} under",
            releases.freed, releases.sent, releases.left, releases.void, releases.under
        )?;
        writeln!(
            f,
            "poll: {} granted, {} pending",
            polls.granted, polls.pending
        )?;
        write!(
            f,
            "cancel: {} cancelled, {} owing, {} too late",
            cancels.cancelled, cancels.owing, cancels.too_late
        )
    }
}
