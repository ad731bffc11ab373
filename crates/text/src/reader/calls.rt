//! The calls of a reader.

ghost use Rattle.std.specs.Prelude.{◌≡◌, ◌+◌, ◌≤◌, length, min, IfOk, IfSome};
ghost use Rattle.grammar.specs.Faults.{GivesOne};
ghost use Rattle.text.specs.Law.{Reading, told, NextAsked, SheetAfter, reading_after, ModelTold, PlaceTold, WithinLimits, NamesKnown};

use super::Reader;
use crate::content::Content;
use crate::cursor::Cursor;
use crate::declared::Declared;
use crate::delivery::deliver;
use crate::elements::Elements;
use crate::fault::TextFault;
use crate::notation::Notation;
use crate::refusal::ReadRefusal;
use names::names::Names;
use names::vocabulary::Vocabulary;
use parts::part::{MOST_PARTS, Part};

impl<'t, N: Notation + Drop> Reader<'t, N> {
    /// Begins a text, over the names known so far.
    pub fn open(notation: N, vocabulary: Vocabulary, text: &'t [u8]) -> Reader<'t, N>
        ensures { result ≡ record { notation = N.which; known = vocabulary.names; texts = vocabulary.texts; text = text.now; given = 0 } }
    {
        let Vocabulary { names, texts } = vocabulary;
        let known = names.len();
        Reader {
            notation,
            text,
            cursor: Cursor::new(text),
            elements: Elements::new(names),
            known,
            texts,
            given: 0,
            fault: None,
        }
    }

    /// The next declaration: its parts are written into the sheet of 256 parts, and blank
    /// parts behind them. None where the text has no more; else why it cannot be read on,
    /// which every later call tells again. The sheet stays as it is then.
    pub fn next(&mut self, sheet: &mut [Part]) -> Result<Option<Declared<'t>>, ReadRefusal>
        ensures answer { NextAsked self.old (length sheet.old) (told result sheet.new) }
        ensures sheet { SheetAfter (told result sheet.new) sheet.old sheet.new }
        ensures goes_on { self.new ≡ reading_after (told result sheet.new) self.old }
        ensures model { ModelTold self.old (told result sheet.new) }
        ensures place { PlaceTold self.old result }
        ensures limits { WithinLimits self.old result }
        ensures one { GivesOne N.which }
    {
        if sheet.len() != MOST_PARTS {
            return Err(ReadRefusal::SheetLength {
                length: sheet.len(),
            });
        }
        match self.fault {
            Some(fault) => return Err(ReadRefusal::Text(fault)),
            None => {}
        }
        let known = self.elements.names.len();
        let mut made = Content::new();
        let read = self
            .notation
            .declaration(&mut self.cursor, &mut self.elements, &mut made);
        match read {
            Ok(next) => {
                let Some(element) = next else {
                    return Ok(None);
                };
                let declared = deliver(element, &made, sheet)?;
                self.given += 1;
                Ok(Some(declared))
            }
            Err(misfit) => {
                let fault = TextFault {
                    cause: misfit.cause,
                    place: misfit.place,
                    texts: self.texts,
                    declarations: self.given,
                };
                // a declaration that is refused names nothing
                self.elements.names.truncate(known);
                self.fault = Some(fault);
                Err(ReadRefusal::Text(fault))
            }
        }
    }

    /// Ends the reading: the names known now, and one text more.
    pub fn close(self) -> Vocabulary
        ensures names { NamesKnown self.entry result.names }
        ensures texts { result.texts ≡ min 65535 (self.entry.texts + 1) }
    {
        let Reader {
            elements,
            texts,
            ..
        } = self;
        Vocabulary {
            names: elements.names,
            texts: texts.saturating_add(1),
        }
    }

    /// The names known so far, with those of the declarations given.
    pub fn names(&self) -> &Names
        ensures { NamesKnown self.now result.now }
    {
        &self.elements.names
    }
}
