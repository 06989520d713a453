//! The call for the commands that have no workers.

ghost use Rattle.std.specs.Prelude.{◌≡◌, map, string_bytes, IsTrue};
ghost use Rattle.cqs_cli.specs.Commands.{commands};
ghost use Rattle.cqs_cli.specs.Contract.{IsCallOf};
ghost use Rattle.cqs_cli.specs.Meanings.{HasTold};
ghost use Rattle.cqs_cli.specs.declared.kept.Kept.TheVariants.{Nothing};

use crate::judging::judge;
use crate::kept::Kept;
use crate::telling::tell;
use cqs_cli_streams::{DONE, Sink, Source};
use std::alloc::Global;

/// One call for the commands that have no workers: does what the words say and gives the status
/// that the process ends with. It takes no handle, so it returns. To it the words of `work` and of
/// `limit` are no command: `top` of `cqs_cli_top` does them itself, and calls this for all others.
///
/// `IsCallOf` says what each status means, what was read, which status must come where no fault
/// does, and what is kept. What it says of content holds where the source and the sink tell it;
/// what it says of their tallies holds of every source and sink.
///
/// The floor of a run is kept where its report was made, which is before anything is written: with
/// status 0, and with status 5 where the input is a plan or the words are those of `gen`.
pub fn top_alone<S: Source, K: Sink>(
    alloc: Global,
    words: &[String],
    source: &mut S,
    sink: &mut K,
    kept: &mut Kept,
) -> u8
    requires empty { kept.old ≡ Nothing }

    // Status 0 means: the bytes read are a plan, and the text written, whole and flushed, is the
    // report of the turn machine on it, over plain resources with legal histories; or the words ask
    // for the plan of a number, and the text is the summary of its report; or they ask for a
    // schedule or a history to be read, and the text is what that comes to.
    ensures headline { result ≡ DONE → HasTold (map string_bytes words.now)
        (S.left source.old) (S.left source.new) (K.held sink.old) (K.held sink.new)
        × IsTrue (K.is_flushed sink.new) }

    ensures call { IsCallOf commands S.Source K.Sink (map string_bytes words.now)
        source.old source.new sink.old sink.new kept.new result }
{
    let verdict = judge(alloc, words, source, kept);
    tell(sink, &verdict)
}
