//! What is read from a place on.

ghost use Rattle.std.specs.Prelude.{◌≡◌, ◌≤◌, length, take};
ghost use Rattle.text.specs.Cursors.{rest_of, Moved, BlanksRead, NameRead, WordRead, MarkRead, CommentRead};

use super::Cursor;
use super::bytes::{begins_name, blanks, comment_inside, common, name_bytes};
use crate::mark::{Mark, suffix};

impl<'t> Cursor<'t> {
    /// At the beginning of a text.
    pub fn new(text: &'t [u8]) -> Cursor<'t>
        ensures text { result.text.now ≡ text.now }
        ensures at { result.at ≡ 0 }
    {
        Cursor { text, at: 0 }
    }

    /// What has not been read.
    pub fn rest(&self) -> &'t [u8]
        ensures { result.now ≡ rest_of self.now }
    {
        &self.text[self.at..]
    }

    // Reads bytes of the rest.
    pub fn advance(&mut self, bytes: usize)
        requires { bytes ≤ length (rest_of self.old) }
        ensures { Moved self.old (take bytes (rest_of self.old)) self.new }
    {
        self.at += bytes;
    }

    /// Reads white space, as much as there is, and says whether there is some.
    pub fn skip_blanks(&mut self) -> bool
        ensures { BlanksRead self.old result self.new }
    {
        let count = blanks(self.rest());
        self.advance(count);
        count > 0
    }

    /// Reads a name, if one stands here.
    pub fn name(&mut self) -> Option<&'t [u8]>
        ensures { NameRead self.old result self.new }
    {
        let rest = self.rest();
        match rest {
            [first, ..] if begins_name(*first) => {
                let name = &rest[..name_bytes(rest)];
                self.advance(name.len());
                Some(name)
            }
            _ => None,
        }
    }

    /// Reads the bytes of a fixed word, or gives the place of the first one that is not its.
    pub fn word(&mut self, word: &[u8]) -> Result<(), usize>
        ensures { WordRead self.old word.now result self.new }
    {
        let rest = self.rest();
        if rest.starts_with(word) {
            self.advance(word.len());
            return Ok(());
        }
        Err(self.at + common(word, rest))
    }

    /// Reads the suffix, if one stands here.
    pub fn mark(&mut self) -> Option<Mark>
        ensures { MarkRead self.old result self.new }
    {
        let (mark, _rest) = suffix(self.rest());
        if mark.is_some() {
            self.advance(1);
        }
        mark
    }

    /// Reads a comment, and says whether one begins here; or gives the place from which
    /// on it is none.
    pub fn comment(&mut self) -> Result<bool, usize>
        ensures { CommentRead self.old result self.new }
    {
        let Some(inside) = self.rest().strip_prefix(b"<!-") else {
            return Ok(false);
        };
        let [b'-', inside @ ..] = inside else {
            return Err(self.at + 3);
        };
        match comment_inside(inside) {
            Ok(bytes) => {
                self.advance(4 + bytes + 3);
                Ok(true)
            }
            Err(bytes) => Err(self.at + 4 + bytes),
        }
    }
}
