//! What is written for a script: an answer to each of its calls, line after line.
ghost use Rattle.std.specs.Prelude.{MatchResult};
ghost use Rattle.std.specs.Str.Lines.{lines};
ghost use Rattle.runner.specs.Failures.{IsIo};
ghost use Rattle.runner.specs.Scripts.{ScriptWritten};
ghost use Rattle.runner.specs.Turns.{EntriesWritten};

use crate::asking::set_calls;
use crate::entry::{Entry, read_entries};
use crate::failure::Failure;
use crate::writing::write_entries;
use parts::part::Part;
use seasons::season::whole_season;
use std::alloc::Global;
use std::io;
use store::windows::SHEET_PARTS;

/// Runs the calls of a script as one season, and answers them in turn, each on a line of its
/// own; a line that is no call ends the script. The memory is handed in beside what it serves,
/// as in the standard library.
#[tactic(auto, using(crate::proofs::Sofar::script_written, crate::proofs::Sofar::script_failed, std::proofs::lemmas::Result::err_from_is_err_and))]
pub fn answer_script<W: io::Write>(heap: Global, text: &str, out: &mut W) -> Result<(), Failure>
    ensures { ScriptWritten (lines text.now) (W.contents out.old) (W.contents out.new) result }
{
    let mut entries = Vec::new(heap);
    let outcome = read_entries(heap, text, &mut entries);
    answer_entries(heap, entries.as_slice(), out)?;
    outcome
}

// Runs the calls that the entries make on one set, and writes all answers.
fn answer_entries<W: io::Write>(
    heap: Global,
    entries: &[Entry<'_>],
    out: &mut W,
) -> Result<(), Failure>
    ensures { MatchResult result (λ _. EntriesWritten entries.now (W.contents out.old) (W.contents out.new)) IsIo }
{
    let calls = set_calls(heap, entries)?;
    let mut sheet = vec![in heap; Part::BLANK; SHEET_PARTS]?;
    let answers = whole_season(heap, sheet.as_mut_slice(), calls.as_slice())?;
    write_entries(entries, answers.as_slice(), out)?;
    Ok(())
}
