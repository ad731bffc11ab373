//! What several steps of a declaration have in common.

ghost use Rattle.std.specs.Prelude.{◌≡◌, Bool, List, ℕ};
ghost use Rattle.grammar.specs.Machine.{Named, name_before};
ghost use Rattle.text.specs.Cursors.{rest_of};
ghost use Rattle.text.specs.Declaring.{ReadTo, WordTaken, IsChildName, WantsName, ChildRead, Onward};
ghost use Rattle.text.specs.Progress.{NamesGrow};
ghost use Rattle.text.specs.declared.fault.TextCause.TheVariants.{NotDeclarations};

use crate::cursor::Cursor;
use crate::elements::Elements;
use crate::fault::{PlacedCause, TextCause};

/// The text does not go on as one of declarations.
pub(super) fn misplaced(cursor: &Cursor<'_>) -> PlacedCause
    ensures { result ≡ record { cause = NotDeclarations; place = cursor.now.at } }
{
    TextCause::NotDeclarations.at(cursor.at)
}

/// Reads the bytes of a fixed word.
pub(super) fn word(cursor: &mut Cursor<'_>, word: &[u8]) -> Result<(), PlacedCause>
    ensures { WordTaken cursor.old word.now result cursor.new }
{
    match cursor.word(word) {
        Ok(()) => Ok(()),
        Err(place) => Err(TextCause::NotDeclarations.at(place)),
    }
}

/// Reads a name within content, and gives its symbol.
pub(super) fn child(cursor: &mut Cursor<'_>, elements: &mut Elements) -> Result<u32, PlacedCause>
    ensures read { (ks : List (List ℕ)) (bytes : List ℕ) (a : Named) (h : Bool) → IsChildName a → ReadTo ks bytes (name_before a) h cursor.old elements.old → WantsName (name_before a) h (rest_of cursor.old) → ChildRead ks bytes a result cursor.new elements.new }
    ensures grow { NamesGrow elements.old elements.new }
    ensures onward { Onward cursor.old cursor.new }
{
    let place = cursor.at;
    let Some(name) = cursor.name() else {
        return Err(misplaced(cursor));
    };
    match elements.meet(name) {
        Ok(symbol) => Ok(symbol),
        Err(cause) => Err(cause.at(place)),
    }
}
