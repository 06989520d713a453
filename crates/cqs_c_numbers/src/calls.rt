//! A call with the pass of a number.

ghost use Rattle.cqs_c_numbers.specs.Answered.{IsAnswered};

use crate::numbered::Numbered;
use cqs_c_callers::{Answer, Verb};

impl Numbered {
    /// One call. `number` is that of a wait or of an element.
    pub fn call(&self, verb: Verb, pass: u32, number: u64) -> Answer
        ensures { IsAnswered self.now pass verb number result }
    {
        let (hand, mut caller) = match self.take(pass) {
            Ok(taken) => taken,
            Err(refused) => return refused,
        };
        let answer = self.primitive.call(&mut caller, verb, number);
        self.put(pass, hand, caller);
        answer
    }
}
