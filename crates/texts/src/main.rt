//! Reads the texts of a table. A row is a name and a text, and it is written what that gives: how
//! many declarations, or its first fault; or a name and two texts, and it is written what is
//! told of their compare; or a name and more texts, which are read in one run. A tab stands
//! between, and %HH for a byte that cannot stand in a row.

#![tactic(auto)]

mod many;

use anyhow::Context;
use listing::listing::list;
use names::vocabulary::Vocabulary;
use percent_encoding::percent_decode_str;
use report::compare::{NotCompared, Source, compare_texts};
use std::alloc::{AllocError, Global};
use std::io::{self, Write};
use text::dtd::Dtd;

fn main(rt: HostRuntime) -> anyhow::Result<()> {
    let table = io::read_to_string(rt.alloc(), rt.stdin())?;
    let mut out = io::BufWriter::new(rt.alloc(), rt.stdout())?;
    for row in table.as_str().lines() {
        let (name, texts) = row
            .split_once('\t')
            .context("expected a name, a tab and a text")?;
        write!(out, "{name}\t")?;
        match texts.split_once('\t') {
            None => write_outcome(rt.alloc(), texts, &mut out)?,
            Some((_, more)) if more.contains('\t') => write_many(rt.alloc(), texts, &mut out)?,
            Some((sent, expected)) => write_compared(rt.alloc(), sent, expected, &mut out)?,
        }
    }
    out.flush()?;
    Ok(())
}

// The bytes of a text.
fn decoded(heap: Global, written: &str) -> Result<Vec<u8>, AllocError> {
    let mut text = Vec::new(heap);
    percent_decode_str(written).append_to(&mut text)?;
    Ok(text)
}

// Reads one text, and writes what it gives.
fn write_outcome<W: Write>(heap: Global, written: &str, out: &mut W) -> anyhow::Result<()> {
    let text = decoded(heap, written)?;
    let listing = list(heap, Dtd, Vocabulary::new(), text.as_slice())?;
    match listing.fault {
        None => writeln!(out, "{} declarations", listing.elements.len())?,
        Some(fault) => writeln!(out, "{fault}")?,
    }
    Ok(())
}

// Compares two texts, and writes what is told.
fn write_compared<W: Write>(
    heap: Global,
    sent: &str,
    expected: &str,
    out: &mut W,
) -> anyhow::Result<()> {
    let sent_text = decoded(heap, sent)?;
    let expected_text = decoded(heap, expected)?;
    let sent = Source {
        path: "sent",
        text: sent_text.as_slice(),
    };
    let expected = Source {
        path: "expected",
        text: expected_text.as_slice(),
    };
    writeln!(out)?;
    match compare_texts(heap, sent, expected, out) {
        Ok(tally) => writeln!(out, "all included: {}", tally.is_all_included())?,
        Err(NotCompared::Refused(refused)) => writeln!(out, "{refused}")?,
        Err(NotCompared::Io(error)) => return Err(anyhow::Error::from(error)),
    }
    Ok(())
}

// Reads texts in one run, and writes what it answers.
fn write_many<W: Write>(heap: Global, texts: &str, out: &mut W) -> anyhow::Result<()> {
    let mut decoded_texts = Vec::new(heap);
    for written in texts.split('\t') {
        decoded_texts.push(decoded(heap, written)?)?;
    }
    writeln!(out)?;
    many::write_run(heap, decoded_texts.as_slice(), out)
}
