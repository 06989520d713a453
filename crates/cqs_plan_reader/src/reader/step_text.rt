//! The step that a text says.
ghost use Rattle.std.specs.Prelude.{◌≡◌};
ghost use Rattle.std.specs.Char.{is_ascii_digit};
ghost use Rattle.std.specs.List.{list_all};
ghost use Rattle.cqs_plan_reader.specs.Meaning.{has_one_space, is_decimal, step_of, verb_step, work_step};
ghost use Rattle.cqs_plan.specs.Order.{AreFew};

use super::places::{Need, place_of};
use cqs_plan::{FaultKind, Resource, Step};

fn has_one_space(text: &[u8]) -> bool
    ensures { result ≡ has_one_space text.now }
{
    text.iter().filter(|byte| **byte == b' ').count() == 1
}

fn has_digits(text: &[u8]) -> bool
    ensures { result ≡ list_all is_ascii_digit text.now }
{
    text.iter().all(|byte| byte.is_ascii_digit())
}

fn is_decimal(text: &[u8]) -> bool
    ensures { result ≡ is_decimal text.now }
{
    has_digits(text) && !text.starts_with(b"0")
}

fn work(turns: &str) -> Result<Step, FaultKind>
    ensures { result ≡ work_step turns.now }
{
    if !is_decimal(turns.as_bytes()) {
        return Err(FaultKind::Step);
    }
    match turns.parse::<u32>() {
        Ok(number) if 1 <= number && number <= 1000 => Ok(Step::Work(number)),
        _ => Err(FaultKind::Step),
    }
}

fn verb_step(word: &str, argument: &str, resources: &[Resource]) -> Result<Step, FaultKind>
    requires { AreFew resources.now }
    ensures { result ≡ verb_step resources.now word.now argument.now }
{
    match word {
        "work" => work(argument),
        "take" => place_of(argument, Need::Hold, resources)
            .map(Step::Take)
            .ok_or(FaultKind::Target),
        "give" => place_of(argument, Need::Hold, resources)
            .map(Step::Give)
            .ok_or(FaultKind::Target),
        "down" => place_of(argument, Need::Latch, resources)
            .map(Step::Down)
            .ok_or(FaultKind::Target),
        "wait" => place_of(argument, Need::Latch, resources)
            .map(Step::Await)
            .ok_or(FaultKind::Target),
        "arrive" => place_of(argument, Need::Barrier, resources)
            .map(Step::Arrive)
            .ok_or(FaultKind::Target),
        _ => Err(FaultKind::Step),
    }
}

/// The step that a text says: a verb, one space and an argument.
pub fn step_of(text: &str, resources: &[Resource]) -> Result<Step, FaultKind>
    requires { AreFew resources.now }
    ensures { result ≡ step_of resources.now text.now }
{
    if !has_one_space(text.as_bytes()) {
        return Err(FaultKind::Step);
    }
    match text.split_once(' ') {
        Some((word, argument)) => verb_step(word, argument, resources),
        None => Err(FaultKind::Step),
    }
}
