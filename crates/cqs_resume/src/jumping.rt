//! The jump of the resume counter: it goes on past numbers whose segments were taken out, by one
//! step for all of them.

ghost use Rattle.std.specs.Prelude.{◌≡◌, ◌<◌, OnOk, IfErr};
ghost use Rattle.cqs_core.specs.declared.doings.Doing.TheVariants as doing;
ghost use Rattle.cqs_rule_laws.specs.Jumped.{AreOut, MayJump};
ghost use Rattle.cqs_rule_laws.specs.Manner.{IsSmart};
ghost use Rattle.cqs_rule.specs.Passes.{pass_view, client_of, IsOf};
ghost use Rattle.cqs_resume.specs.Leaps.{HasJumped, HasLeapt, HasMissedJump};

use cqs_rule::{Client, Pass, Queue};

/// Moves the resume counter from a number to a later one, past numbers whose segments were all
/// taken out: none of them is drawn any more. A resume jumps from the number after the one that it
/// drew. The error is the number where the counter was found instead, and nothing is changed then.
#[inline(always)]
pub fn jump<C: Client>(queue: &Queue<C>, pass: &mut Pass<C>, from: u64, to: u64) -> Result<(), u64>
    requires belongs { IsOf queue.now pass.old }
    requires smart { IsSmart (C.primitive (client_of queue.now)).manner.leaving }
    requires may { MayJump from to (pass_view pass.old) }
    ensures belongs { IsOf queue.now pass.new }
    ensures jumped { OnOk result (HasJumped from to pass.old pass.new) }
    ensures missed { IfErr result (λ found. HasMissedJump from to found pass.old pass.new) }
{
    let found = queue.swap_resumes(pass, from, to);
    if found == from { Ok(()) } else { Err(found) }
}

/// Tries one jump, where there is a number to jump over, and else none. Whether it was made is all
/// the same to a resume: it goes on by drawing a number.
#[inline(always)]
pub(crate) fn leap<C: Client>(queue: &Queue<C>, pass: &mut Pass<C>, from: u64, to: u64)
    requires belongs { IsOf queue.now pass.old }
    requires smart { IsSmart (C.primitive (client_of queue.now)).manner.leaving }
    requires owes { (pass_view pass.old).facts.doing ≡ doing.Owes }
    requires out { AreOut from to (pass_view pass.old) }
    ensures belongs { IsOf queue.now pass.new }
    ensures leapt { HasLeapt from to pass.old pass.new }
{
    if from < to {
        let _ = jump(queue, pass, from, to);
    }
}
