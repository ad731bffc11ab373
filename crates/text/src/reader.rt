//! A reader of a text of declarations.

ghost use Rattle.std.specs.Prelude.{◌≡◌, length, IfOk, IfSome};

use crate::cursor::Cursor;
use crate::elements::Elements;
use crate::fault::TextFault;
use crate::notation::Notation;
use names::vocabulary::Vocabulary;
use std::marker::Model;

mod calls;

/// A text that is read, one declaration after another. It is begun over the names known
/// so far, and hands them back with those that its declarations name.
#[derive(Drop)]
pub struct Reader<'t, N: Notation> {
    notation: N,
    text: &'t [u8],
    cursor: Cursor<'t>,
    elements: Elements,
    /// how many names were known before
    known: usize,
    /// how many texts were begun before, counted up to 65,535
    texts: u16,
    /// how many declarations were given
    given: u32,
    /// the first fault of the text, once it was come to
    fault: Option<TextFault>,
}

impl<'t, N: Notation> Model for Reader<'t, N> {
    ghost use Rattle.std.specs.Prelude.{take};
    ghost use Rattle.text.specs.Law.{Reading};
    ghost use Rattle.text.specs.Standing.{Standing};

    ghost Value = { Reading };

    ghost view = { λ r. record { notation = N.which; known = take r.known r.elements.names; texts = r.texts; text = r.text.now; given = r.given } };

    ghost invariant = { λ r. Standing N.which r.text.now r.cursor r.elements r.known r.texts r.given r.fault };
}
