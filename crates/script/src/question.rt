//! A question to a model, and the words that ask it.
ghost use Rattle.std.specs.Prelude.{codes, MatchResult};
ghost use Rattle.script.specs.Questions.{NoColon, SetNext, SymbolNext, QuestionNext};
ghost use Rattle.script.specs.Words.{First};

use crate::error::LineError;
use crate::read;
use crate::reader::Reader;
use parts::symbols::SymbolSet;

/// What is asked of the messages of a model.
#[derive(Clone, Copy)]
pub enum Question {
    /// Has every message a symbol of the set, and has every nonempty one.
    Every { set: SymbolSet },
    /// How often does the symbol occur.
    Occurs { symbol: u32 },
    /// Has every message with a symbol of the first set one of the second.
    Brings { first: SymbolSet, second: SymbolSet },
    /// Can the first symbol come after the second.
    After { first: u32, second: u32 },
}

impl<'a> Reader<'a> {
    fn next_set(&mut self) -> Result<SymbolSet, LineError<'a>>
        ensures { SetNext self.old result self.new }
    {
        self.read_next(read::set, |word| LineError::NotSet { word })
    }

    fn next_symbol(&mut self) -> Result<u32, LineError<'a>>
        ensures { SymbolNext self.old result self.new }
    {
        self.read_next(read::number, |word| LineError::NotSymbol { word })
    }

    /// The question that the next words ask.
    pub(crate) fn next_question(&mut self) -> Result<Question, LineError<'a>>
        ensures { QuestionNext self.old result self.new }
    {
        let name = self.next_word();
        // no table: each question reads other words
        match name {
            Some("every") => {
                let set = self.next_set()?;
                Ok(Question::Every { set })
            }
            Some("occurs") => {
                let symbol = self.next_symbol()?;
                Ok(Question::Occurs { symbol })
            }
            Some("brings") => {
                let first = self.next_set()?;
                let second = self.next_set()?;
                Ok(Question::Brings { first, second })
            }
            Some("after") => {
                let first = self.next_symbol()?;
                let second = self.next_symbol()?;
                Ok(Question::After { first, second })
            }
            _ => Err(LineError::NoSuchQuestion { name }),
        }
    }

    /// The colon that ends a question.
    pub(crate) fn next_colon(&mut self) -> Result<(), LineError<'a>>
        ensures { MatchResult result (λ _. First self.old (codes ":") self.new) (NoColon self.old) }
    {
        let word = self.next_word();
        match word {
            Some(":") => Ok(()),
            _ => Err(LineError::NotColon { word }),
        }
    }
}
