//! What a script has no words for: sheets of other lengths, and families of makers asked about
//! messages and hung behind compares, by turns in one season. Prints each answer.

#![tactic(auto)]

mod calls;
mod families;
mod messages;
mod season;
mod sheets;
mod tables;
mod words;

use calls::mixed_season;
use families::{Family, families};
use messages::{write_messages, write_two_boards};
use parts::part::Part;
use season::write_season;
use sheets::write_sheets;
use std::alloc::Global;
use std::io;
use std::io::Write;
use store::windows::SHEET_PARTS;

fn main(rt: HostRuntime) -> io::Result<()> {
    let heap = rt.alloc();
    let mut out = io::BufWriter::new(heap, rt.stdout())?;
    let families = families();
    write_sheets(heap, &mut out)?;
    writeln!(out, "# families asked about messages")?;
    write_messages(&families, &mut out)?;
    write_two_boards(&mut out)?;
    writeln!(out, "# families hung behind compares, by turns")?;
    write_mixed(heap, &families, &mut out)?;
    out.flush()
}

// Writes a season whose compares have any of the families behind them, or none.
fn write_mixed<W: io::Write>(heap: Global, families: &[Family; 4], out: &mut W) -> io::Result<()> {
    let calls = mixed_season(heap, families)?;
    let mut sheet = vec![in heap; Part::BLANK; SHEET_PARTS]?;
    write_season(heap, &mut sheet, &calls, out)
}
