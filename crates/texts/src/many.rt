//! A run over many texts.

use names::names::Names;
use names::vocabulary::Vocabulary;
use parts::part::Part;
use readings::answer::ReadAnswer;
use readings::call::ReadCall;
use readings::readings::read_all;
use std::alloc::Global;
use std::io::Write;
use text::dtd::Dtd;
use wording::symbol::NamedSymbol;

/// Begins each text and asks three times what is next, over the names of all of them; writes the
/// answers, and then the names.
pub fn write_run<W: Write>(heap: Global, texts: &[Vec<u8>], out: &mut W) -> anyhow::Result<()> {
    let mut calls = Vec::new(heap);
    for text in texts {
        calls.push(ReadCall::Begin(text.as_slice()))?;
        calls.push(ReadCall::Next)?;
        calls.push(ReadCall::Next)?;
        calls.push(ReadCall::Next)?;
    }
    let run = read_all(heap, Dtd, Vocabulary::new(), calls.as_slice())?;
    let names = &run.vocabulary.names;
    for answer in run.answers.as_slice() {
        write_answer(answer, names, out)?;
    }
    write!(out, "names:")?;
    for symbol in 0..names.len() as u32 {
        write!(out, " {}", NamedSymbol { symbol, names })?;
    }
    writeln!(out)?;
    Ok(())
}

// Writes an answer.
fn write_answer<W: Write>(
    answer: &ReadAnswer<'_>,
    names: &Names,
    out: &mut W,
) -> anyhow::Result<()> {
    match answer {
        ReadAnswer::Begun => writeln!(out, "begun")?,
        ReadAnswer::NoText => writeln!(out, "no text")?,
        ReadAnswer::NoneLeft => writeln!(out, "none left")?,
        ReadAnswer::Fault(fault) => writeln!(out, "{fault}")?,
        ReadAnswer::Declares { parts, symbol, .. } => {
            let symbol = *symbol;
            write!(out, "{} {symbol}:", NamedSymbol { symbol, names })?;
            write_parts(parts.as_slice(), out)?;
        }
    }
    Ok(())
}

// Writes parts, and ends the line.
fn write_parts<W: Write>(parts: &[Part], out: &mut W) -> anyhow::Result<()> {
    for part in parts {
        let Part {
            kind,
            symbol,
            low,
            high,
        } = *part;
        write!(out, " {kind}:{symbol}:{low}:{high}")?;
    }
    writeln!(out)?;
    Ok(())
}
