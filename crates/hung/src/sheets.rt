//! Sheets of other lengths than a message set wants.

use crate::calls::each_call;
use crate::season::write_season;
use parts::part::Part;
use set::message_set::check_sheet::check_sheet;
use std::alloc::Global;
use std::io;
use store::windows::SHEET_PARTS;

/// What a sheet is full of before a set is made over it.
const MARK: Part = Part {
    kind: 1,
    symbol: 5,
    low: 0,
    high: 0,
};

const LENGTHS: [usize; 4] = [0, SHEET_PARTS - 1, SHEET_PARTS, SHEET_PARTS + 1];

/// Of a sheet of each length: its check, a season over it, and how many of its parts the
/// season altered.
pub(crate) fn write_sheets<W: io::Write>(heap: Global, out: &mut W) -> io::Result<()> {
    for length in LENGTHS {
        let mut sheet = vec![in heap; MARK; length]?;
        write_check(&sheet, out)?;
        write_season(heap, &mut sheet, &each_call(), out)?;
        write_altered(&sheet, out)?;
    }
    Ok(())
}

fn write_check<W: io::Write>(sheet: &[Part], out: &mut W) -> io::Result<()> {
    let length = sheet.len();
    match check_sheet(sheet) {
        Ok(()) => writeln!(out, "# a sheet of {length} parts: taken"),
        Err(refusal) => writeln!(out, "# a sheet of {length} parts: {refusal}"),
    }
}

fn write_altered<W: io::Write>(sheet: &[Part], out: &mut W) -> io::Result<()> {
    let length = sheet.len();
    let altered = sheet.iter().filter(|part| **part != MARK).count();
    writeln!(out, "{altered} of {length} parts altered")
}
