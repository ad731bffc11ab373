//! How a call and its answer are written: the words of its line, a colon, the answer.
ghost use Rattle.std.specs.Prelude.{◌∷◌, ◌++◌, [], List, ℕ, OnOk, codes, map};
ghost use Rattle.std.specs.Io.KnownBytes.{Appends};
ghost use Rattle.seasons.specs.Calls.{told};
ghost use Rattle.seasons.specs.Texts.{told_said};
ghost use Rattle.runner.specs.Scripts.{WordsAre, answer_said, spaced};
ghost use Rattle.runner.specs.Turns.{AllDue, EntriesWritten, asked_in};

use crate::entry::Entry;
use answers::answer::answer_call;
use answers::reply::Reply;
use parts::refusal::Refusal;
use seasons::answer::Answer;
use std::io;

/// Writes what goes to the entries, in turn: to each call of the set the next of its answers,
/// to the others what is said of their tables.
pub(crate) fn write_entries<W: io::Write>(
    entries: &[Entry<'_>],
    answers: &[Answer],
    out: &mut W,
) -> io::Result<()>
    requires { AllDue [] (asked_in entries.now) (map told answers.now) }
    ensures { OnOk result (EntriesWritten entries.now (W.contents out.old) (W.contents out.new)) }
{
    let mut next = 0;
    for entry in entries {
        write_words(out, entry.line)?;
        match answer_call(&entry.call) {
            Some(answer) => write_answer(out, &answer)?,
            None => {
                write_set_answer(out, &answers[next])?;
                next += 1;
            }
        }
    }
    Ok(())
}

// Writes the words of a line, with one space between two. No `Display`, which promises
// its text as a function: the standard library tells the words of a text by a relation.
// (The loop is that of a set's `Display`, over another trait of writing.)
fn write_words<W: io::Write>(out: &mut W, line: &str) -> io::Result<()>
    ensures { OnOk result ((ws : List (List ℕ)) × WordsAre line.now ws × Appends (W.contents out.old) (W.contents out.new) (spaced ws)) }
{
    let mut gap = "";
    for word in line.split_whitespace() {
        write!(out, "{gap}{word}")?;
        gap = " ";
    }
    Ok(())
}

// Writes what follows the words: a colon, what is said of a table and the end of the line. By
// hand, since a `Result` has no text of its own.
fn write_answer<W: io::Write>(out: &mut W, answer: &Result<Reply, Refusal>) -> io::Result<()>
    ensures { OnOk result (Appends (W.contents out.old) (W.contents out.new) (codes ": " ++ (answer_said answer.now ++ (10 ∷ [])))) }
{
    match answer {
        Ok(reply) => writeln!(out, ": {reply}"),
        Err(refusal) => writeln!(out, ": {refusal}"),
    }
}

// The same with an answer of the set.
fn write_set_answer<W: io::Write>(out: &mut W, answer: &Answer) -> io::Result<()>
    ensures { OnOk result (Appends (W.contents out.old) (W.contents out.new) (codes ": " ++ (told_said (told answer.now) ++ (10 ∷ [])))) }
{
    writeln!(out, ": {answer}")
}
