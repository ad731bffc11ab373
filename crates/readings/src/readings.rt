//! A list of calls run over texts with one vocabulary.

ghost use Rattle.std.specs.Prelude.{◌≡◌, IfOk, length};
ghost use Rattle.readings.specs.Calls.{history};
ghost use Rattle.readings.specs.Runs.{start, Lawful, LawFixes, ModelsSaid, NamesKnown, TextsCounted};

use crate::answer::ReadAnswer;
use crate::call::ReadCall;
use crate::desk::{Desk, close, next};
use names::vocabulary::Vocabulary;
use parts::part::{MOST_PARTS, Part};
use std::alloc::{AllocError, Global};
use text::notation::Notation;
use text::reader::Reader;

/// What a run gave: an answer to each call, and what is known at the end.
#[derive(Drop)]
pub struct Readings<'t> {
    pub answers: Vec<ReadAnswer<'t>>,
    pub vocabulary: Vocabulary,
}

/// Runs all of the calls in turn, over the names known so far, and closes the text that is
/// read at the end. The law of a whole run is its contract: each call is answered as is due
/// after all that came before it. Where there is no memory for an answer nothing is given.
pub fn read_all<'t, N: Notation + Copy + Drop>(
    heap: Global,
    notation: N,
    vocabulary: Vocabulary,
    calls: &[ReadCall<'t>],
) -> Result<Readings<'t>, AllocError>
    ensures count { IfOk result (λ run. length run.answers.items ≡ length calls.now) }
    ensures law { IfOk result (λ run. Lawful (start N.which vocabulary) (history calls.now run.answers.items)) }
    ensures models { IfOk result (λ run. ModelsSaid (history calls.now run.answers.items)) }
    ensures names { IfOk result (λ run. NamesKnown (start N.which vocabulary) (history calls.now run.answers.items) run.vocabulary.names) }
    ensures texts { IfOk result (λ run. TextsCounted (start N.which vocabulary) (history calls.now run.answers.items) run.vocabulary.texts) }
    ensures fixed { LawFixes (start N.which vocabulary) }
{
    let mut desk = Desk::Idle(vocabulary);
    let mut answers = Vec::new(heap);
    let mut sheet = [Part::BLANK; MOST_PARTS];
    for place in 0..calls.len() {
        let answer = match calls[place] {
            ReadCall::Begin(text) => {
                desk = Desk::Reads(Reader::open(notation, close(desk), text));
                ReadAnswer::Begun
            }
            ReadCall::Next => next(heap, &mut desk, &mut sheet)?,
        };
        answers.push(answer)?;
    }
    Ok(Readings {
        answers,
        vocabulary: close(desk),
    })
}
