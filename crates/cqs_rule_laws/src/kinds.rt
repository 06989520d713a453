//! The steps of the queue itself that draw a number or make an exchange, as type parameters of the
//! calls that make them.

ghost use Rattle.cqs_core.specs.QueueSteps as steps;

use crate::change::{Change, Waits};

// The pass has and owes nothing then that it didn't have before.
const STAYS: Change = Change {
    gains: false,
    owes: false,
    pays: false,
    waits: Waits::Stay,
    settles: false,
};

/// Which step of the queue a call makes.
pub trait Kind {
    ghost use Rattle.std.specs.Prelude.{◌≡◌};
    ghost use Rattle.cqs_core.specs.QueueSteps.{QueueStep};
    ghost use Rattle.cqs_rule_laws.specs.Kinds.{change_of};

    ghost step: { QueueStep };

    /// What the step changes of what its pass counts.
    fn change() -> Change
        ensures { result ≡ change_of step };
}

/// A number is drawn to suspend at, by a pass at the door.
pub struct Draws;

impl Kind for Draws {
    ghost step = { steps.draws };

    fn change() -> Change {
        STAYS
    }
}

/// A number is drawn to suspend at, by an idle pass that comes to the door with the same step.
pub struct Enters;

impl Kind for Enters {
    ghost step = { steps.enters };

    fn change() -> Change {
        STAYS
    }
}

/// A number is drawn to resume at, by a pass that owes a resumption.
pub struct Reaches;

impl Kind for Reaches {
    ghost step = { steps.reaches };

    fn change() -> Change {
        Change {
            owes: true,
            ..STAYS
        }
    }
}

/// A number is drawn to resume at, by an idle pass that begins the next of the resumptions that it
/// owes.
pub struct Begins;

impl Kind for Begins {
    ghost step = { steps.begins };

    fn change() -> Change {
        Change {
            owes: true,
            pays: true,
            ..STAYS
        }
    }
}

/// An empty cell gets a waiter.
pub struct Installs;

impl Kind for Installs {
    ghost step = { steps.installs };

    fn change() -> Change {
        Change {
            waits: Waits::Open,
            ..STAYS
        }
    }
}

/// A suspend takes the value that a resume left.
pub struct Takes;

impl Kind for Takes {
    ghost step = { steps.takes };

    fn change() -> Change {
        Change {
            gains: true,
            settles: true,
            ..STAYS
        }
    }
}

/// A resume serves the waiter.
pub struct Serves;

impl Kind for Serves {
    ghost step = { steps.serves };

    fn change() -> Change {
        STAYS
    }
}

/// An empty cell gets the value of a resume.
pub struct Leaves;

impl Kind for Leaves {
    ghost step = { steps.leaves };

    fn change() -> Change {
        STAYS
    }
}

/// An empty cell gets the value of a resume, which watches it.
pub struct LeavesWatched;

impl Kind for LeavesWatched {
    ghost step = { steps.in_sync steps.leaves_watched };

    fn change() -> Change {
        Change {
            owes: true,
            ..STAYS
        }
    }
}

/// A suspend takes the value that a resume left and watches.
pub struct TakesWatched;

impl Kind for TakesWatched {
    ghost step = { steps.in_sync steps.takes_watched };

    fn change() -> Change {
        Change {
            gains: true,
            ..STAYS
        }
    }
}

/// A resume takes the value back that it watched, and breaks the cell.
pub struct Breaks;

impl Kind for Breaks {
    ghost step = { steps.in_sync steps.breaks };

    fn change() -> Change {
        Change {
            gains: true,
            ..STAYS
        }
    }
}

/// A resume leaves its value to the canceller of the wait.
pub struct Delegates;

impl Kind for Delegates {
    ghost step = { steps.delegates };

    fn change() -> Change {
        STAYS
    }
}

/// A waiter begins to leave; its client is to be asked.
pub struct StartsLeaving;

impl Kind for StartsLeaving {
    ghost step = { steps.starts_leaving };

    fn change() -> Change {
        Change {
            owes: true,
            ..STAYS
        }
    }
}

/// A waiter leaves the line, and resumes will pass over its cell.
pub struct LeavesLine;

impl Kind for LeavesLine {
    ghost step = { steps.leaves_line };

    fn change() -> Change {
        Change {
            owes: true,
            ..STAYS
        }
    }
}

/// A waiter leaves at once, and a resume will end at its cell.
pub struct LeavesAtOnce;

impl Kind for LeavesAtOnce {
    ghost step = { steps.leaves_at_once };

    fn change() -> Change {
        Change {
            waits: Waits::Close,
            ..STAYS
        }
    }
}

/// A canceller ends its leaving: resumes pass over the cell.
pub struct Settles;

impl Kind for Settles {
    ghost step = { steps.settles };

    fn change() -> Change {
        Change {
            waits: Waits::Close,
            settles: true,
            ..STAYS
        }
    }
}

/// A canceller ends its leaving, and owes the resumption whose value was left to it.
pub struct SettlesOwing;

impl Kind for SettlesOwing {
    ghost step = { steps.settles_owing };

    fn change() -> Change {
        Change {
            owes: true,
            waits: Waits::Close,
            settles: true,
            ..STAYS
        }
    }
}

/// A canceller was refused: the resume that comes ends at the cell.
pub struct Refuses;

impl Kind for Refuses {
    ghost step = { steps.refuses };

    fn change() -> Change {
        Change {
            waits: Waits::Close,
            ..STAYS
        }
    }
}

/// A canceller was refused, and the value that was left to it ends there.
pub struct RefusesValue;

impl Kind for RefusesValue {
    ghost step = { steps.refuses_value };

    fn change() -> Change {
        Change {
            waits: Waits::Close,
            settles: true,
            ..STAYS
        }
    }
}
