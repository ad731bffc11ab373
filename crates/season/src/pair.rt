//! The compare of two files, and the status that is made of it.

ghost use Rattle.std.specs.Prelude.{◌≡◌, IfOk, OnErr};
ghost use Rattle.std.specs.Process.{exit_status};
ghost use Rattle.season.specs.Statuses.{tally_status};

use report::compare::{NotCompared, Source, compare_texts};
use report::tally::Tally;
use std::io::Write;
use std::process::ExitCode;
use std::{fs, io};

// The status where some element of the sent file is not included.
const NOT_INCLUDED: u8 = 1;

// The status where there is no answer.
const NO_ANSWER: u8 = 2;

/// Compares the element declarations of two files, and writes what is found; the status is 0
/// where every element of the sent one is included, 1 where one is not, 2 where a file is not
/// read or is refused, memory runs out or the answer is not written. No clause says more, since
/// none can know what files hold; what is written of two texts is promised by `compare_texts`.
pub fn compare_files(rt: &HostRuntime, sent: &str, expected: &str) -> ExitCode {
    match (fs::read(rt, sent), fs::read(rt, expected)) {
        (Err(error), _) => unread(rt, sent, &error),
        (Ok(_), Err(error)) => unread(rt, expected, &error),
        (Ok(sent_text), Ok(expected_text)) => {
            let sent = Source {
                path: sent,
                text: sent_text.as_slice(),
            };
            let expected = Source {
                path: expected,
                text: expected_text.as_slice(),
            };
            finish(rt, write_compared(rt, sent, expected))
        }
    }
}

// Says that a file is not read.
fn unread(rt: &HostRuntime, path: &str, error: &io::Error) -> ExitCode
    ensures { exit_status result ≡ 2 }
{
    // a message that cannot be written changes nothing in the status
    let _ = eprintln!(rt; "expected element declarations in {path}: {error}");
    ExitCode::from(NO_ANSWER)
}

// Writes to standard output what is found.
fn write_compared<'t>(
    rt: &HostRuntime,
    sent: Source<'t>,
    expected: Source<'t>,
) -> Result<Tally, NotCompared<'t>> {
    let mut out = io::BufWriter::new(rt.alloc(), rt.stdout())?;
    let tally = compare_texts(rt.alloc(), sent, expected, &mut out)?;
    out.flush()?;
    Ok(tally)
}

// The status of an answer.
fn status_of(tally: Tally) -> ExitCode
    ensures { exit_status result ≡ tally_status tally }
{
    if tally.is_all_included() {
        ExitCode::SUCCESS
    } else {
        ExitCode::from(NOT_INCLUDED)
    }
}

// Says on standard error why there is no answer, where there is none, and gives the status.
fn finish(rt: &HostRuntime, outcome: Result<Tally, NotCompared<'_>>) -> ExitCode
    ensures answer { IfOk outcome.entry (λ t. exit_status result ≡ tally_status t) }
    ensures no_answer { OnErr outcome.entry (exit_status result ≡ 2) }
{
    match outcome {
        Ok(tally) => status_of(tally),
        Err(failure) => {
            let _ = eprintln!(rt; "{failure}");
            ExitCode::from(NO_ANSWER)
        }
    }
}
