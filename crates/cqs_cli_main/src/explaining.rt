//! What a person is told beside the output.
ghost use Rattle.std.specs.Prelude.{IsSome};
ghost use Rattle.cqs_cli_main.specs.Messages.{MayExplain};

use cqs_cli::{DONE, NO_PLAN};
use cqs_cli_top::{Kept, SharedQueueFloor};
use cqs_plan_advice::advise;
use cqs_work::JobEnd;
use std::alloc::Global;

/// The line that explains what was written: where the first fault of an input stands and what would
/// be right there, or why jobs are unfinished. None where there is nothing to explain, or no memory
/// for it.
pub fn explain(
    alloc: Global,
    status: u8,
    input: Option<&[u8]>,
    kept: &Kept<SharedQueueFloor>,
) -> Option<String>
    ensures { IsSome result → MayExplain status kept.now }
{
    match kept {
        Kept::Worked(worked) if status == DONE => {
            unfinished(alloc, count_unfinished(worked.ends.as_slice()))
        }
        _ if status == NO_PLAN => advise(alloc, input?).ok(),
        _ => None,
    }
}

fn count_unfinished(ends: &[JobEnd]) -> usize {
    ends.iter()
        .filter(|end| matches!(end, JobEnd::Unfinished))
        .count()
}

/// The line on so many jobs that are unfinished, if there are any.
fn unfinished(alloc: Global, count: usize) -> Option<String> {
    if count == 0 {
        return None;
    }
    let text = format!(in alloc;
        "cqs: jobs unfinished: {count}, since the turns ran out; a worker makes its turns without \
         waiting for the others, so give more turns than run needs\n"
    );
    text.ok()
}
