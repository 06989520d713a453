//! The wait of a job.

ghost use Rattle.std.specs.Prelude.{◌≡◌, ◌<◌, Some};
ghost use Rattle.cqs_floor_alone_kinds.specs.Waits.{place_in, slot_wait};

use cqs_rule::Place;

/// The wait of a job: the place of its resource, the round where that is a barrier, and where the
/// cell of the wait stands there.
#[derive(Clone, Copy)]
pub struct Wait {
    pub at: u32,
    pub round: u32,
    pub word: u32,
    pub index: u64,
}

/// The wait of a job, or none, in 16 bytes. Where all jobs wait, each turn reads them all, and an
/// `Option<Wait>` would take twice as many.
#[derive(Clone, Copy)]
pub enum WaitSlot {
    Free,
    Used {
        round: u8,
        at: u16,
        word: u32,
        index: u64,
    },
}

impl Wait {
    /// A wait for the resource at this place, in this round, whose cell stands there.
    pub fn new(at: u32, round: u32, place: Place) -> Self
        ensures at { result.at ≡ at }
        ensures round { result.round ≡ round }
        ensures place { place_in result ≡ place }
    {
        Wait {
            at,
            round,
            word: place.word,
            index: place.index,
        }
    }

    /// Where its cell stands.
    pub fn place(self) -> Place
        ensures { result ≡ place_in self }
    {
        Place {
            word: self.word,
            index: self.index,
        }
    }
}

impl WaitSlot {
    /// One with this wait. There are few resources and rounds.
    pub fn of(wait: Wait) -> Self
        requires few_resources { wait.at < 65536 }
        requires few_rounds { wait.round < 256 }
        ensures { slot_wait result ≡ Some wait }
    {
        WaitSlot::Used {
            round: wait.round as u8,
            at: wait.at as u16,
            word: wait.word,
            index: wait.index,
        }
    }

    /// The wait that is there.
    #[inline]
    pub fn wait(self) -> Option<Wait>
        ensures { result ≡ slot_wait self }
    {
        match self {
            WaitSlot::Free => None,
            WaitSlot::Used {
                round,
                at,
                word,
                index,
            } => Some(Wait {
                at: u32::from(at),
                round: u32::from(round),
                word,
                index,
            }),
        }
    }
}
