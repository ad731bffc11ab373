//! Two texts are read and compared.

ghost use Rattle.std.specs.Prelude.{◌≡◌, Some};
ghost use Rattle.report.specs.Compared.{TextsCompared, SourceRead, IsIo, fault_said, not_compared_said};

use crate::report::write_report;
use crate::side::Side;
use crate::tally::Tally;
use listing::listing::{Listing, list};
use names::vocabulary::Vocabulary;
use parts::part::Part;
use std::alloc::{AllocError, AllocFailed, Global};
use std::{fmt, io};
use store::windows::SHEET_PARTS;
use text::dtd::Dtd;
use text::fault::TextFault;
use text::position::Position;

/// A text, and the path that it goes by.
#[derive(Clone, Copy)]
pub struct Source<'t> {
    pub path: &'t str,
    pub text: &'t [u8],
}

/// Where a text is at fault, and why.
#[derive(Clone, Copy)]
pub struct Refused<'t> {
    pub source: Source<'t>,
    pub fault: TextFault,
}

/// Why two texts are not compared.
#[derive(Drop)]
pub enum NotCompared<'t> {
    /// one of them has a fault
    Refused(Refused<'t>),
    /// memory ran out, or the answer could not be written
    Io(io::Error),
}

impl From<io::Error> for NotCompared<'_> {
    ghost from_gives = { λ _ e. IsIo e };

    fn from(error: io::Error) -> Self {
        NotCompared::Io(error)
    }
}

impl From<AllocError> for NotCompared<'_> {
    ghost from_gives = { λ _ e. IsIo e };

    fn from(error: AllocError) -> Self {
        NotCompared::Io(io::Error::from(error))
    }
}

impl<T: Drop> From<AllocFailed<T>> for NotCompared<'_> {
    ghost from_gives = { λ _ e. IsIo e };

    fn from(failed: AllocFailed<T>) -> Self {
        NotCompared::from(AllocError::from(failed))
    }
}

/// Path, line and column, the cause, and the refusal with its figures.
impl fmt::Display for Refused<'_> {
    ghost output = { λ x. Some (fault_said x.source.path.now x.source.text.now x.fault) };

    fn fmt<W: fmt::Write>(&self, f: &mut fmt::Formatter<W>) -> fmt::Result {
        let path = self.source.path;
        let Position { line, column } = Position::of(self.source.text, self.fault.place);
        let cause = self.fault.cause;
        let fault = self.fault;
        write!(f, "{path}:{line}:{column}: {cause}; {fault}")
    }
}

impl fmt::Display for NotCompared<'_> {
    ghost output = { λ e. not_compared_said e };

    fn fmt<W: fmt::Write>(&self, f: &mut fmt::Formatter<W>) -> fmt::Result {
        match self {
            NotCompared::Refused(refused) => write!(f, "{refused}"),
            NotCompared::Io(error) => write!(f, "{error}"),
        }
    }
}

// What a text declares, or its first fault.
fn read<'t>(
    heap: Global,
    vocabulary: Vocabulary,
    source: Source<'t>,
) -> Result<Listing<'t>, NotCompared<'t>>
    ensures { SourceRead vocabulary source.entry result }
{
    match list(heap, Dtd, vocabulary, source.text) {
        Ok(listing) => match listing.fault {
            None => Ok(listing),
            Some(fault) => Err(NotCompared::Refused(Refused { source, fault })),
        },
        Err(error) => Err(NotCompared::from(error)),
    }
}

/// Reads the sent text and then the expected one, over the names of both, and writes what is
/// found of each element; gives the counts.
pub fn compare_texts<'t, W: io::Write>(
    heap: Global,
    sent: Source<'t>,
    expected: Source<'t>,
    out: &mut W,
) -> Result<Tally, NotCompared<'t>>
    ensures { TextsCompared sent.entry expected.entry (W.contents out.old) (W.contents out.new) result }
{
    let Listing {
        elements: sent_elements,
        vocabulary,
        ..
    } = read(heap, Vocabulary::new(), sent)?;
    let Listing {
        elements: expected_elements,
        vocabulary,
        ..
    } = read(heap, vocabulary, expected)?;
    let mut sheet = vec![in heap; Part::BLANK; SHEET_PARTS]?;
    let sent_side = Side {
        path: sent.path,
        text: sent.text,
        elements: sent_elements.as_slice(),
    };
    let expected_side = Side {
        path: expected.path,
        text: expected.text,
        elements: expected_elements.as_slice(),
    };
    let tally = write_report(
        sheet.as_mut_slice(),
        sent_side,
        expected_side,
        &vocabulary.names,
        out,
    )?;
    Ok(tally)
}
