//! What is wrong with a line that is no call.
ghost use Rattle.std.specs.Prelude.{◌≡◌, Some};
ghost use Rattle.script.specs.Complaints.{complaint, word_or_end};
ghost use Rattle.script.specs.declared.error.LineError.TheVariants.{Memory};

use std::alloc::AllocFailed;
use std::fmt;

/// Why a line is no call. A word is `None` where the line ends before it.
#[derive(Drop)]
pub enum LineError<'a> {
    /// No call has this name.
    NoSuchCall { name: &'a str },
    /// No question has this name.
    NoSuchQuestion { name: Option<&'a str> },
    /// A word is not written as a set.
    NotSet { word: Option<&'a str> },
    /// A word is not written as a symbol.
    NotSymbol { word: Option<&'a str> },
    /// No colon stands before the parts.
    NotColon { word: Option<&'a str> },
    /// A word is not written as a part; `count` numbers the parts of its table from 1.
    NotPart { count: usize, word: &'a str },
    /// A word is not written as the number of a model.
    NotNumber { word: Option<&'a str> },
    /// A word stands where the line has to end.
    NotEnd { word: &'a str },
    /// Memory ran out while the line was read.
    Memory,
}

impl<T: Drop> From<AllocFailed<T>> for LineError<'_> {
    ghost from_gives = { λ _ r. r ≡ Memory };

    fn from(_e: AllocFailed<T>) -> Self {
        LineError::Memory
    }
}

impl fmt::Display for LineError<'_> {
    ghost output = { λ e. Some (complaint e) };

    fn fmt<W: fmt::Write>(&self, f: &mut fmt::Formatter<W>) -> fmt::Result {
        match self {
            LineError::NoSuchCall { name } => {
                write!(
                    f,
                    "no such call: {name} (calls: table, ask, declare, withdraw, issue, recall, compare, judge)"
                )
            }
            LineError::NoSuchQuestion { name } => {
                let name = or_end(*name);
                write!(
                    f,
                    "expected a question (every, occurs, brings, after), and not: {name}"
                )
            }
            LineError::NotSet { word } => {
                let word = or_end(*word);
                write!(f, "expected a set of symbols, as 0,1 or -, and not: {word}")
            }
            LineError::NotSymbol { word } => {
                let word = or_end(*word);
                write!(f, "expected a symbol, and not: {word}")
            }
            LineError::NotColon { word } => {
                let word = or_end(*word);
                write!(f, "expected : before the parts, and not: {word}")
            }
            LineError::NotPart { count, word } => {
                write!(f, "part {count} is not kind:symbol:low:high: {word}")
            }
            LineError::NotNumber { word } => {
                let word = or_end(*word);
                write!(f, "expected a number of a model, and not: {word}")
            }
            LineError::NotEnd { word } => {
                write!(f, "expected the end of the line, and not: {word}")
            }
            LineError::Memory => write!(f, "out of memory"),
        }
    }
}

/// A word, or what stands in its place where the line ends before it.
fn or_end(word: Option<&str>) -> &str
    ensures { result.now ≡ word_or_end word.entry }
{
    word.unwrap_or("the end of the line")
}
