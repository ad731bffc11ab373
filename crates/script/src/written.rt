//! What one word of a row of words writes: a part, or a symbol.
ghost use Rattle.std.specs.Prelude.{◌≡◌, ℕ, List, Option};
ghost use Rattle.std.specs.Borrow.{Bor};
ghost use Rattle.script.specs.Lines.{no_part, no_symbol};
ghost use Rattle.script.specs.Reads.{number_read, part_read};
ghost use Rattle.script.specs.declared.error.LineError.{LineError as LineErrorOf};

use crate::error::LineError;
use crate::read;
use parts::part::Part;

/// Something that a word writes.
pub(crate) trait Written: Sized + Drop {
    ghost written: { List ℕ → Option Self };

    ghost unread: { ℕ → Bor (List ℕ) → LineErrorOf };

    /// What the word writes, if it does.
    fn read(word: &str) -> Option<Self>
        ensures { result ≡ written word.now };

    /// What is wrong with a word that writes none, the `count`th of its row.
    fn wrong<'a>(count: usize, word: &'a str) -> LineError<'a>
        ensures { result ≡ unread count word.entry };
}

impl Written for Part {
    ghost written = { part_read };

    ghost unread = { no_part };

    fn read(word: &str) -> Option<Part> {
        read::part(word)
    }

    fn wrong<'a>(count: usize, word: &'a str) -> LineError<'a> {
        LineError::NotPart { count, word }
    }
}

/// A symbol.
impl Written for u32 {
    ghost written = { number_read };

    ghost unread = { no_symbol };

    fn read(word: &str) -> Option<u32> {
        read::number(word)
    }

    fn wrong<'a>(_count: usize, word: &'a str) -> LineError<'a> {
        LineError::NotSymbol { word: Some(word) }
    }
}
