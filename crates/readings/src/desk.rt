//! The text that is read, if one was begun.

ghost use Rattle.std.specs.Prelude.{◌≡◌, IfOk, length};
ghost use Rattle.readings.specs.Calls.{said};
ghost use Rattle.readings.specs.Desks.{Closed, NextCame};

use crate::answer::ReadAnswer;
use names::vocabulary::Vocabulary;
use parts::part::Part;
use std::alloc::{AllocError, Global};
use text::notation::Notation;
use text::reader::Reader;
use text::refusal::ReadRefusal;

/// What is known where no text was begun yet, or the reader of the last one.
#[derive(Drop)]
pub(crate) enum Desk<'t, N: Notation> {
    Idle(Vocabulary),
    Reads(Reader<'t, N>),
}

/// Closes the text that is read, if one is.
pub(crate) fn close<N: Notation + Drop>(desk: Desk<'_, N>) -> Vocabulary
    ensures { Closed desk.entry result }
{
    match desk {
        Desk::Idle(vocabulary) => vocabulary,
        Desk::Reads(reader) => reader.close(),
    }
}

/// The next declaration of the text that is read, if one is. The sheet of 256 parts is used
/// on the way.
pub(crate) fn next<'t, N: Notation + Drop>(
    heap: Global,
    desk: &mut Desk<'t, N>,
    sheet: &mut [Part],
) -> Result<ReadAnswer<'t>, AllocError>
    requires { length sheet.old ≡ 256 }
    ensures { IfOk result (λ answer. NextCame desk.old (said answer) desk.new) }
{
    let Desk::Reads(reader) = desk else {
        return Ok(ReadAnswer::NoText);
    };
    match reader.next(sheet) {
        Ok(Some(declared)) => {
            let parts = Vec::from_slice(heap, &sheet[..declared.length])?;
            Ok(ReadAnswer::Declares {
                parts,
                symbol: declared.symbol,
                name: declared.name,
            })
        }
        Ok(None) => Ok(ReadAnswer::NoneLeft),
        Err(ReadRefusal::Text(fault)) => Ok(ReadAnswer::Fault(fault)),
        Err(ReadRefusal::SheetLength { .. } | ReadRefusal::Table(_)) => unreachable(),
    }
}
