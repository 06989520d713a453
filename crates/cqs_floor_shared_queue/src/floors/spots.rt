//! Where a job stands.

ghost use Rattle.std.specs.Prelude.{◌≡◌, ◌<◌, length, slice_set};
ghost use Rattle.cqs_floor_shared_queue.specs.Spots as specs;

use cqs_floor_shared::Turned;
use cqs_floor_shared_kinds::Came;
use cqs_plan::FloorTake;
use cqs_rule::Place;

/// The wait of a job: the place of its resource, the round where that is a barrier, and where the
/// cell of the wait stands there. What came with its number stands in no cell.
#[derive(Clone, Copy)]
pub struct FloorWait {
    pub at: u32,
    pub round: u32,
    pub word: u32,
    pub index: u64,
}

impl FloorWait {
    /// A wait for the resource at this place, in this round, whose cell stands there.
    pub fn new(at: u32, round: u32, place: Place) -> Self
        ensures { result ≡ specs.wait_for at round place }
    {
        FloorWait {
            at,
            round,
            word: place.word,
            index: place.index,
        }
    }

    /// Where its cell stands.
    pub fn place(self) -> Place
        ensures { result ≡ specs.place_in self }
    {
        Place {
            word: self.word,
            index: self.index,
        }
    }
}

/// Where a job stands: its wait, if it has one, and whether what it waits for, or waited for last,
/// came with its number.
#[derive(Clone, Copy)]
pub struct Spot {
    pub wait: Option<FloorWait>,
    pub came: bool,
}

/// Writes down where a job stands after a call that may have to wait there. It is what the floor
/// answers.
pub(super) fn note(
    spots: &mut Vec<Spot>,
    at: u32,
    round: u32,
    job: u32,
    came: Came,
) -> Result<FloorTake, Turned>
    requires { job < length spots.old.items }
    ensures spots { spots.new.items
        ≡ slice_set spots.old.items job (specs.spot_for at round came) }
    ensures answer { result ≡ specs.answer_for came }
{
    spots[job as usize] = spot_for(at, round, came);
    answer_for(came)
}

/// Where a job stands after such a call.
fn spot_for(at: u32, round: u32, came: Came) -> Spot
    ensures { result ≡ specs.spot_for at round came }
{
    match came {
        Came::Now(_) | Came::Worn => Spot {
            wait: None,
            came: false,
        },
        Came::Under(index) => Spot {
            wait: Some(FloorWait::new(at, round, Place { word: 0, index })),
            came: true,
        },
        Came::Waits(place) => Spot {
            wait: Some(FloorWait::new(at, round, place)),
            came: false,
        },
    }
}

/// What a floor answers to such a call.
fn answer_for(came: Came) -> Result<FloorTake, Turned>
    ensures { result ≡ specs.answer_for came }
{
    match came {
        Came::Now(element) => Ok(FloorTake::Now(element)),
        Came::Under(number) => Ok(FloorTake::Waits(number)),
        Came::Waits(place) => Ok(FloorTake::Waits(place.index)),
        Came::Worn => Err(Turned),
    }
}
