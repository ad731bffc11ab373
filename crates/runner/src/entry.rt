//! The lines of a script that make calls.
ghost use Rattle.std.specs.Str.Lines.{lines};
ghost use Rattle.runner.specs.Entries.{LineEntered, ScriptEntered};

use crate::failure::Failure;
use script::call::Call;
use script::error::LineError;
use std::alloc::{AllocError, Global};

/// A line that makes a call, with the call.
#[derive(Drop)]
pub(crate) struct Entry<'a> {
    pub(crate) line: &'a str,
    pub(crate) call: Call,
}

/// Adds what the lines of the text make, up to the first that is no call.
pub(crate) fn read_entries<'a>(
    heap: Global,
    text: &'a str,
    entries: &mut Vec<Entry<'a>>,
) -> Result<(), Failure>
    ensures { ScriptEntered (lines text.now) entries.old.items entries.new.items result }
{
    for (place, line) in text.lines().enumerate() {
        read_line(heap, place + 1, line, entries)?;
    }
    Ok(())
}

// Adds what a line makes. Want of memory is no fault of the line, and ends the run as such.
fn read_line<'a>(
    heap: Global,
    number: usize,
    line: &'a str,
    entries: &mut Vec<Entry<'a>>,
) -> Result<(), Failure>
    ensures { LineEntered number line.now entries.old.items entries.new.items result }
{
    match Call::read(heap, line) {
        Ok(None) => Ok(()),
        Ok(Some(call)) => {
            entries.push(Entry { line, call })?;
            Ok(())
        }
        Err(LineError::Memory) => Err(Failure::from(AllocError)),
        Err(error) => {
            let reason = format!(in heap; "{error}")?;
            Err(Failure::BadLine { number, reason })
        }
    }
}
