//! Reads a line from its front to its end, word by word.
ghost use Rattle.std.specs.Prelude.{◌≡◌, ℕ, List, MatchResult};
ghost use Rattle.std.specs.Str.Iter.{split_whitespace_rest};
ghost use Rattle.script.specs.Lines.{AllWrite, NotAllWrite, Numbered, NoNumber, NotEnded};
ghost use Rattle.script.specs.Reader.{ReadNext};
ghost use Rattle.script.specs.Words.{Next, NoWord};

use crate::error::LineError;
use crate::read;
use crate::written::Written;
use std::alloc::Global;
use std::marker::Model;
use std::str::SplitWhitespace;

/// The words of a line that are still to be read, and the memory for what they write.
#[derive(Drop)]
pub(crate) struct Reader<'a> {
    heap: Global,
    words: SplitWhitespace<'a>,
}

// Clauses see the text that is left to read, since all that is read next comes of it.
impl<'a> Model for Reader<'a> {
    ghost Value = { List ℕ };

    ghost view = { λ r. split_whitespace_rest r.words };
}

impl<'a> Reader<'a> {
    /// At the front of a line.
    pub(crate) fn new(heap: Global, line: &'a str) -> Reader<'a>
        ensures { result ≡ line.now }
    {
        let words = line.split_whitespace();
        Reader { heap, words }
    }

    /// The next word, if the line has one more.
    pub(crate) fn next_word(&mut self) -> Option<&'a str>
        ensures { Next self.old result self.new }
    {
        self.words.next()
    }

    /// The next word as `read` takes it, or what is `wrong` where it takes none.
    pub(crate) fn read_next<T, R, W>(&mut self, read: R, wrong: W) -> Result<T, LineError<'a>>
    where
        R: FnOnce(&'a str) -> Option<T>,
        W: FnOnce(Option<&'a str>) -> LineError<'a>,
        requires reads { R.IsAlwaysCallable read }
        requires tells { W.IsAlwaysCallable wrong }
        ensures { ReadNext (R.post read) (W.post wrong) self.old result self.new }
    {
        let word = self.next_word();
        // no `ok_or_else`: no proof closes yet of a closure that gives back a borrow it captured
        word.and_then(read).ok_or(wrong(word))
    }

    /// The number that the next word writes.
    pub(crate) fn next_number(&mut self) -> Result<u32, LineError<'a>>
        ensures { MatchResult result (λ n. Numbered self.old n self.new) (NoNumber self.old) }
    {
        self.read_next(read::number, |word| LineError::NotNumber { word })
    }

    /// What all the words left write.
    pub(crate) fn rest<T: Written>(self) -> Result<Vec<T>, LineError<'a>>
        ensures { MatchResult result (λ row. AllWrite T.written self.entry row.items) (NotAllWrite T.written T.unread self.entry) }
    {
        let mut row = Vec::new(self.heap);
        for word in self.words {
            let Some(value) = T::read(word) else {
                return Err(T::wrong(row.len() + 1, word));
            };
            row.push(value)?;
        }
        Ok(row)
    }

    /// No words are left.
    pub(crate) fn end(mut self) -> Result<(), LineError<'a>>
        ensures { MatchResult result (λ _. NoWord self.entry) (NotEnded self.entry) }
    {
        match self.next_word() {
            None => Ok(()),
            Some(word) => Err(LineError::NotEnd { word }),
        }
    }
}
