//! What a call of the program keeps for its caller.

ghost use Rattle.std.specs.Prelude.{◌≡◌};
ghost use Rattle.cqs_cli.specs.declared.kept.Kept.TheVariants as alone;
ghost use Rattle.cqs_cli_top.specs.declared.kept.Kept.TheVariants.{Nothing};
ghost use Rattle.cqs_cli_top.specs.KeptWorks.{alone_of, kept_limited};

use cqs_cli::{Kept as KeptAlone, QueueFloor};
use cqs_cli_limits::Limited;
use cqs_work::Worked;

/// What a call of the program keeps: nothing, or what its command worked on.
#[derive(Drop)]
pub enum Kept<F> {
    /// No command made its text.
    Nothing,
    /// The floor on which a plan was run, as it stood when the report was made.
    Ran(QueueFloor),
    /// What workers left of a plan, as it stood when the text was made.
    Worked(Worked<F>),
    /// What workers left of requests, as it stood when the text was made.
    Limited(Limited),
}

/// What a command kept that has no workers.
pub fn kept_alone<F: Drop>(run: KeptAlone) -> Kept<F>
    ensures is { alone_of result ≡ run }
    ensures nothing { run ≡ alone.Nothing → result ≡ Nothing }
{
    match run {
        KeptAlone::Nothing => Kept::Nothing,
        KeptAlone::Ran(floor) => Kept::Ran(floor),
    }
}

/// What the command `limit` kept.
pub fn kept_limited<F: Drop>(limited: Option<Limited>) -> Kept<F>
    ensures { result ≡ kept_limited limited }
{
    match limited {
        Some(limited) => Kept::Limited(limited),
        None => Kept::Nothing,
    }
}

/// Keeps what workers left of a plan.
pub fn keep_work<F: Drop>(kept: &mut Kept<F>, worked: Worked<F>)
    ensures { kept.new ≡ Kept.Worked worked }
{
    *kept = Kept::Worked(worked);
}
