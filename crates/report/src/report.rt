//! What is written of two texts: a line for each element, and a last line that counts.

ghost use Rattle.std.specs.Prelude.{◌≡◌, ◌+◌, ◌≤◌, length, OnOk};
ghost use Rattle.report.specs.Lines.{side_of};
ghost use Rattle.report.specs.Reports.{SentWritten, MissingWritten, ReportWritten};
ghost use Rattle.report.specs.Tallies.{no_tally};

use crate::finding::{Finding, compare_element, declaration_of};
use crate::line::Line;
use crate::side::Side;
use crate::tally::{Summary, Tally};
use names::names::Names;
use parts::part::Part;
use std::io;

// Writes what is found of each element of the sent text, in its order.
fn write_sent<W: io::Write>(
    sheet: &mut [Part],
    sent: Side<'_, '_>,
    expected: Side<'_, '_>,
    names: &Names,
    out: &mut W,
) -> io::Result<Tally>
    requires { length sheet.old ≡ 8192 }
    ensures { SentWritten names.now sent.entry expected.entry (W.contents out.old) (W.contents out.new) result }
{
    let mut tally = Tally::NONE;
    for element in sent.elements {
        let finding = compare_element(sheet, element, expected.elements);
        tally = tally.with(finding);
        let line = Line {
            here: sent,
            there: expected,
            names,
            symbol: element.symbol,
            place: element.place,
            finding,
        };
        writeln!(out, "{line}")?;
    }
    Ok(tally)
}

// Writes a line for each element that the expected text alone declares, and counts them.
fn write_missing<W: io::Write>(
    sent: Side<'_, '_>,
    expected: Side<'_, '_>,
    names: &Names,
    out: &mut W,
) -> io::Result<usize>
    ensures { MissingWritten names.now sent.entry expected.entry (W.contents out.old) (W.contents out.new) result }
{
    let mut missing = 0;
    for element in expected.elements {
        if declaration_of(sent.elements, element.symbol).is_none() {
            let line = Line {
                here: expected,
                there: sent,
                names,
                symbol: element.symbol,
                place: element.place,
                finding: Finding::Alone,
            };
            writeln!(out, "{line}")?;
            missing += 1;
        }
    }
    Ok(missing)
}

/// Writes what is found of each element of the sent text, then the elements that the expected
/// text alone declares, and a last line that counts; gives the counts. The sheet of 8,192 parts
/// is scratch.
pub fn write_report<W: io::Write>(
    sheet: &mut [Part],
    sent: Side<'_, '_>,
    expected: Side<'_, '_>,
    names: &Names,
    out: &mut W,
) -> io::Result<Tally>
    requires { length sheet.old ≡ 8192 }
    ensures { ReportWritten names.now sent.entry expected.entry (W.contents out.old) (W.contents out.new) result }
{
    let mut tally = write_sent(sheet, sent, expected, names, out)?;
    tally.missing = write_missing(sent, expected, names, out)?;
    let summary = Summary {
        tally,
        total: sent.elements.len(),
        sent: sent.path,
        expected: expected.path,
    };
    writeln!(out, "{summary}")?;
    Ok(tally)
}
