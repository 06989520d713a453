//! How the pass of a number makes another, and how two become one.

ghost use Rattle.cqs_c_numbers.specs.Callers.{StandsAt};
ghost use Rattle.cqs_c_numbers.specs.Seats.{IsSeated, IsSplit, IsMet};

use crate::caller::Caller;
use crate::marks::{NOBODY, RESTS};
use crate::numbered::Numbered;
use cqs_c_callers::Answer;

impl Numbered {
    /// A new pass, under a number of its own. Of a barrier it gets so many parties.
    pub fn split(&self, pass: u32, gives: u32) -> Answer
        ensures { IsSplit self.now pass gives result }
    {
        let (hand, mut caller) = match self.take(pass) {
            Ok(taken) => taken,
            Err(refused) => return refused,
        };
        let made = self
            .primitive
            .split(&mut caller, self.alloc, self.room, gives);
        self.put(pass, hand, caller);
        match made {
            Ok(made) => self.seat(made),
            Err(refused) => refused,
        }
    }

    // Lays a new pass into the slot of its number.
    pub(crate) fn seat(&self, made: Caller) -> Answer
        requires { StandsAt self.now.primitive made }
        ensures { IsSeated self.now made result }
    {
        let number = made.number();
        if number >= self.passes {
            return Answer::Crowd;
        }
        match self.claim(number, NOBODY) {
            Ok((hand, _nobody)) => {
                self.lay(number, hand, Some(made), RESTS);
                Answer::Made(number)
            }
            Err(_) => Answer::Crowd,
        }
    }

    /// The pass takes in the given one, whose number is nobody's after that.
    pub fn meet(&self, pass: u32, given: u32) -> Answer
        ensures { IsMet self.now pass given result }
    {
        let (hand, mut caller) = match self.take(pass) {
            Ok(taken) => taken,
            Err(refused) => return refused,
        };
        let (given_hand, given_caller) = match self.take(given) {
            Ok(taken) => taken,
            Err(refused) => {
                self.put(pass, hand, caller);
                return refused;
            }
        };
        match self.primitive.meet(&mut caller, given_caller) {
            Ok(()) => {
                self.lay(given, given_hand, None, NOBODY);
                self.put(pass, hand, caller);
                Answer::Met
            }
            Err((given_caller, refused)) => {
                self.put(given, given_hand, given_caller);
                self.put(pass, hand, caller);
                refused
            }
        }
    }
}
