//! From a line of a script to the call that it makes, or to what is wrong with it.
ghost use Rattle.std.specs.Prelude.{MatchResult};
ghost use Rattle.script.specs.Lines.{AllAsk, NotAsk, AllWrite, NotAllWrite, NotEnded, NumberThen, NotNumberThen, CallRead, LineRead};
ghost use Rattle.script.specs.Words.{NoWord};

use crate::error::LineError;
use crate::question::Question;
use crate::reader::Reader;
use crate::written::Written;
use parts::part::Part;
use std::alloc::Global;

/// A call of a script. A call more is a variant here, an arm in `named` with what reads
/// its words, a name in the text of `NoSuchCall` and in the program's help, and an arm in
/// `answer_call` of `answers`, of a set also in `set_call` of `runner`; and each of these has
/// its line in a definition: `CallRead` and `Uncalled`, `complaint`, `CallAnswered`, `asked_of`.
#[derive(Drop)]
pub enum Call {
    /// Check parts as a model, and say what it is.
    Table {
        parts: Vec<Part>,
    },
    /// Ask something of the model of parts.
    Ask {
        question: Question,
        parts: Vec<Part>,
    },
    /// Put the model of the parts at the number.
    Declare {
        number: u32,
        parts: Vec<Part>,
    },
    /// Take away the model at the number.
    Withdraw {
        number: u32,
    },
    /// Move the message set from drawn up to issued.
    Issue,
    /// Move the message set back to drawn up.
    Recall,
    /// Ask whether every message of the sent model fits the expected one, each by its number.
    Compare {
        sent: u32,
        expected: u32,
    },
    /// Ask whether a message fits the model at the number.
    Judge {
        number: u32,
        message: Vec<u32>,
    },
}

impl Call {
    /// The call that a line makes; a comment and a line of blanks make none.
    pub fn read<'a>(heap: Global, line: &'a str) -> Result<Option<Call>, LineError<'a>>
        ensures { LineRead line.now result }
    {
        if line.starts_with('#') {
            return Ok(None);
        }
        let mut reader = Reader::new(heap, line);
        let Some(name) = reader.next_word() else {
            return Ok(None);
        };
        Ok(Some(Call::named(name, reader)?))
    }

    /// The call of a name and the words after it.
    fn named<'a>(name: &'a str, reader: Reader<'a>) -> Result<Call, LineError<'a>>
        ensures { CallRead name.now reader.entry result }
    {
        // no table: each call reads other words
        match name {
            "table" => {
                let parts = reader.rest()?;
                Ok(Call::Table { parts })
            }
            "ask" => {
                let (question, parts) = question_and_parts(reader)?;
                Ok(Call::Ask { question, parts })
            }
            "declare" => {
                let (number, parts) = number_and_rest(reader)?;
                Ok(Call::Declare { number, parts })
            }
            "withdraw" => {
                let number = one_number(reader)?;
                Ok(Call::Withdraw { number })
            }
            "issue" => {
                reader.end()?;
                Ok(Call::Issue)
            }
            "recall" => {
                reader.end()?;
                Ok(Call::Recall)
            }
            "compare" => {
                let (sent, expected) = two_numbers(reader)?;
                Ok(Call::Compare { sent, expected })
            }
            "judge" => {
                let (number, message) = number_and_rest(reader)?;
                Ok(Call::Judge { number, message })
            }
            _ => Err(LineError::NoSuchCall { name }),
        }
    }
}

/// The words after `ask` are a question, a colon and the parts.
fn question_and_parts(mut reader: Reader<'_>) -> Result<(Question, Vec<Part>), LineError<'_>>
    ensures { MatchResult result (λ r. AllAsk reader.entry r.0 r.1.items) (NotAsk reader.entry) }
{
    let question = reader.next_question()?;
    reader.next_colon()?;
    let parts = reader.rest()?;
    Ok((question, parts))
}

/// The words after `declare` and `judge` are a number and what all the others write.
fn number_and_rest<T: Written>(mut reader: Reader<'_>) -> Result<(u32, Vec<T>), LineError<'_>>
    ensures { MatchResult result (λ r. NumberThen reader.entry r.0 (λ rest. AllWrite T.written rest r.1.items)) (NotNumberThen (NotAllWrite T.written T.unread) reader.entry) }
{
    let number = reader.next_number()?;
    let row = reader.rest()?;
    Ok((number, row))
}

/// The words after `withdraw` are one number.
fn one_number(mut reader: Reader<'_>) -> Result<u32, LineError<'_>>
    ensures { MatchResult result (λ n. NumberThen reader.entry n NoWord) (NotNumberThen NotEnded reader.entry) }
{
    let number = reader.next_number()?;
    reader.end()?;
    Ok(number)
}

/// The words after `compare` are two numbers.
fn two_numbers(mut reader: Reader<'_>) -> Result<(u32, u32), LineError<'_>>
    ensures { MatchResult result (λ r. NumberThen reader.entry r.0 (λ rest. NumberThen rest r.1 NoWord)) (NotNumberThen (NotNumberThen NotEnded) reader.entry) }
{
    let first = reader.next_number()?;
    let second = one_number(reader)?;
    Ok((first, second))
}
