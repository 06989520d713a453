//! Where a resume looks whose number's segment was taken out.

ghost use Rattle.std.specs.Prelude.{◌≡◌, ◌+◌, ◌/◌, ◌<◌, length};
ghost use Rattle.cqs_rule_laws.specs.Lists.{Has};
ghost use Rattle.cqs_rule_laws.specs.PassedOver.{IsGone};
ghost use Rattle.cqs_rule.specs.Passes.{pass_view, IsOf};
ghost use Rattle.cqs_rule.specs.Segments.{HasStayed};

use cqs_rule::{CELLS, CELLS_WORD, ClientWords, Pass, Place, Queue, SLOT_STRIDE};

/// The place of the same cell in the last segment: what is found there is the cell of a later
/// number. One load.
#[inline(always)]
pub fn place_after<C: ClientWords>(queue: &Queue<C>, pass: &mut Pass<C>, index: u64) -> Place
    requires belongs { IsOf queue.now pass.old }
    requires small { index < (pass_view pass.old).cells }
    requires out { Has (index / 32) (pass_view pass.old).segments.outs }
    requires before { index / 32 + 1 < length (pass_view pass.old).segments.homes }
    ensures belongs { IsOf queue.now pass.new }
    ensures index { result.index ≡ index }
    ensures gone { IsGone (pass_view pass.new) result }
    ensures stayed { HasStayed pass.old pass.new }
{
    let last = queue.last_segment(pass);
    Place {
        word: last.slot * SLOT_STRIDE as u32 + CELLS_WORD + (index % CELLS) as u32,
        index,
    }
}
