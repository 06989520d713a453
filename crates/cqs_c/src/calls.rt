//! A call, by the numbers that `cqs.h` gives to calls, with its answer as C gets it.

ghost use Rattle.std.specs.Prelude.{◌≡◌};
ghost use Rattle.cqs_c.specs.Calls.{deed_at, IsMade, IsCalled};

use crate::answers::{CqsAnswer, tell};
use cqs_c_numbers::{Answer, Numbered, Verb};

/// What a call is, by its number: one with a pass, or another pass is made, or one taken in.
enum Deed {
    With(Verb),
    Split,
    Meet,
}

fn deed_of(verb: u32) -> Option<Deed>
    ensures { result ≡ deed_at verb }
{
    match verb {
        0 => Some(Deed::With(Verb::Enter)),
        1 => Some(Deed::With(Verb::Try)),
        2 => Some(Deed::With(Verb::Poll)),
        3 => Some(Deed::With(Verb::Cancel)),
        4 => Some(Deed::With(Verb::Leave)),
        5 => Some(Deed::With(Verb::Finish)),
        6 => Some(Deed::With(Verb::State)),
        7 => Some(Deed::With(Verb::Sole)),
        8 => Some(Deed::Split),
        9 => Some(Deed::Meet),
        _ => None,
    }
}

fn make_call(primitive: &Numbered, verb: u32, pass: u32, number: u64) -> Answer
    ensures { IsMade (deed_at verb) primitive.now pass number result }
{
    match deed_of(verb) {
        None => Answer::NoCall,
        Some(Deed::With(verb)) => primitive.call(verb, pass, number),
        Some(Deed::Split) => match u32::try_from(number) {
            Ok(gives) => primitive.split(pass, gives),
            Err(_) => Answer::NoParty,
        },
        Some(Deed::Meet) => match u32::try_from(number) {
            Ok(given) => primitive.meet(pass, given),
            Err(_) => Answer::NoPass,
        },
    }
}

pub(crate) fn call(primitive: &Numbered, verb: u32, pass: u32, number: u64) -> CqsAnswer
    ensures { IsCalled primitive.now verb pass number result }
{
    tell(make_call(primitive, verb, pass, number))
}
