//! A season that is run and printed.

ghost use Rattle.std.specs.Prelude.{◌≡◌, length};

use crate::families::Family;
use crate::words::Words;
use parts::part::Part;
use seasons::answer::Answer;
use seasons::call::Call;
use seasons::season::whole_season;
use std::alloc::Global;
use std::io;

/// Runs the calls as one season over the sheet, and writes each with its answer.
pub(crate) fn write_season<W: io::Write>(
    heap: Global,
    sheet: &mut [Part],
    calls: &[Call<'_, Family>],
    out: &mut W,
) -> io::Result<()> {
    let answers = whole_season(heap, sheet, calls)?;
    write_answers(calls, &answers, out)
}

// Writes each call with its answer, none left out.
fn write_answers<W: io::Write>(
    calls: &[Call<'_, Family>],
    answers: &[Answer],
    out: &mut W,
) -> io::Result<()>
    requires { length answers.now ≡ length calls.now }
{
    for (call, answer) in calls.iter().zip(answers) {
        let call = Words { call };
        writeln!(out, "{call}: {answer}")?;
    }
    Ok(())
}
