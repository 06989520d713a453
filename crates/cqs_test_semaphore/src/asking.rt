//! What a line asks of the caller, and its answer in words.

ghost use Rattle.std.specs.Prelude.{◌≡◌, None, OnOk};
ghost use Rattle.cqs_test_semaphore.specs.Callers.{Stands};

use crate::answers::Answer;
use crate::caller::Caller;
use cqs_rule::Config;
use cqs_semaphore::SemPass;
use std::alloc::{AllocError, Global};

/// The answer to a question. It fails where memory runs out, or nothing is asked.
pub fn answer(alloc: Global, caller: &mut Caller, question: &str) -> anyhow::Result<String>
    requires stands { Stands caller.old }
    ensures { OnOk result (Stands caller.new) }
{
    let mut words = question.split(' ');
    let verb = words.next().unwrap_or("");
    let first = words.next().unwrap_or("0").parse::<u32>()?;
    if verb == "semaphore" {
        let config = Config {
            passes: words.next().unwrap_or("0").parse()?,
            limit: words.next().unwrap_or("0").parse()?,
            slots: words.next().unwrap_or("0").parse()?,
        };
        return make(alloc, caller, first, config);
    }
    if let Some(answer) = ask(alloc, caller, verb, u64::from(first))? {
        return Ok(format!(in alloc; "{answer}")?);
    }
    Ok(tell(alloc, &caller.pass, verb)?)
}

// A new semaphore, with its caller. Where there is none, the one before stays.
fn make(alloc: Global, caller: &mut Caller, permits: u32, config: Config) -> anyhow::Result<String>
    requires stands { Stands caller.old }
    ensures { OnOk result (Stands caller.new) }
{
    let made = match Caller::new(alloc, permits, config) {
        Ok(made) => made,
        Err(error) => return Ok(format!(in alloc; "{error:?}")?),
    };
    *caller = made;
    Ok(String::from_str(alloc, "Ok")?)
}

// Makes the call of this name, if there is one.
fn ask(
    alloc: Global,
    caller: &mut Caller,
    verb: &str,
    number: u64,
) -> Result<Option<Answer>, AllocError>
    requires stands { Stands caller.old }
    ensures { OnOk result (Stands caller.new) }
{
    match verb {
        "finish" => Ok(Some(caller.finish())),
        "sole" => Ok(Some(Answer::Sole(caller.sole()))),
        _ if caller.under.is_some() => Ok(None),
        _ => ask_ready(alloc, caller, verb, number),
    }
}

// Makes the call of this name, if there is one, for a caller who owes nothing.
fn ask_ready(
    alloc: Global,
    caller: &mut Caller,
    verb: &str,
    number: u64,
) -> Result<Option<Answer>, AllocError>
    requires stands { Stands caller.old }
    requires free { caller.old.under ≡ None }
    ensures { OnOk result (Stands caller.new) }
{
    Ok(Some(match verb {
        "acquire" => caller.acquire()?,
        "try" => caller.try_acquire()?,
        "poll" => caller.poll(alloc, number)?,
        "cancel" => caller.cancel(alloc, number)?,
        "release" => caller.release()?,
        "state" => Answer::State(caller.state()),
        _ => return Ok(None),
    }))
}

// Tells what the pass has. Any other question has no answer now.
fn tell(alloc: Global, pass: &SemPass, verb: &str) -> Result<String, AllocError> {
    match verb {
        "held" => format!(in alloc; "{}", pass.held()),
        "waits" => format!(in alloc; "{}", pass.waits()),
        "owes" => format!(in alloc; "{}", pass.owes()),
        _ => format!(in alloc; "Refused"),
    }
}
