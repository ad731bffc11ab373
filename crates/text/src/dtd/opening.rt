//! How a declaration begins and ends.

ghost use Rattle.std.specs.Prelude.{◌≡◌, Bool, false, List, ℕ};
ghost use Rattle.grammar.specs.Declarations.{Content as Spoken, Declaration};
ghost use Rattle.grammar.specs.Machine.{Spot, made as declaration_of};
ghost use Rattle.grammar.specs.Machine.Spot.{outside, opened};
ghost use Rattle.text.specs.Cursors.{rest_of};
ghost use Rattle.text.specs.Declaring.{ReadTo, GapRead, Begun, Titled, PartsFor, content_parts, Closes, DeclarationEnded};
ghost use Rattle.text.specs.declared.elements.Elements.{Elements};
ghost use Rattle.text.specs.Progress.{CursorAt, NamesGrow};

use super::steps::{misplaced, word};
use crate::content::Content;
use crate::cursor::Cursor;
use crate::element::Element;
use crate::elements::Elements;
use crate::fault::{PlacedCause, TextCause};

// Reads white space and comments between declarations.
fn gap(cursor: &mut Cursor<'_>) -> Result<(), PlacedCause>
    ensures { (ks : List (List ℕ)) (bytes : List ℕ) (ds : List Declaration) (h : Bool) → CursorAt ks bytes (outside ds) h cursor.old → GapRead ks bytes ds result cursor.new }
{
    loop {
        cursor.skip_blanks();
        match cursor.comment() {
            Ok(true) => {}
            Ok(false) => return Ok(()),
            Err(place) => return Err(TextCause::NotDeclarations.at(place)),
        }
    }
}

/// Reads `<!ELEMENT`, and says whether there is one; where not, the text has ended.
pub(super) fn begin(cursor: &mut Cursor<'_>, elements: &mut Elements) -> Result<bool, PlacedCause>
    ensures begun { (ks : List (List ℕ)) (bytes : List ℕ) (ds : List Declaration) (h : Bool) → ReadTo ks bytes (outside ds) h cursor.old elements.old → Begun ks bytes ds result cursor.new elements.new }
    ensures grow { NamesGrow elements.old elements.new }
{
    gap(cursor)?;
    if cursor.rest().is_empty() {
        return Ok(false);
    }
    let place = cursor.at;
    word(cursor, b"<!ELEMENT")?;
    match elements.begin() {
        Ok(()) => Ok(true),
        Err(cause) => Err(cause.at(place)),
    }
}

/// Reads white space and the name that is declared.
pub(super) fn title<'t>(
    cursor: &mut Cursor<'t>,
    elements: &mut Elements,
) -> Result<Element<'t>, PlacedCause>
    ensures titled { (ks : List (List ℕ)) (bytes : List ℕ) (ds : List Declaration) → ReadTo ks bytes (opened ds) false cursor.old elements.old → Titled ks bytes ds result cursor.new elements.new }
    ensures grow { NamesGrow elements.old elements.new }
{
    if !cursor.skip_blanks() {
        return Err(misplaced(cursor));
    }
    let place = cursor.at;
    let Some(name) = cursor.name() else {
        return Err(misplaced(cursor));
    };
    match elements.declare(name) {
        Ok(symbol) => Ok(Element {
            name,
            symbol,
            place,
        }),
        Err(cause) => Err(cause.at(place)),
    }
}

/// Reads `>`.
pub(super) fn end(cursor: &mut Cursor<'_>, made: &Content) -> Result<(), PlacedCause>
    ensures { (ks : List (List ℕ)) (bytes : List ℕ) (ds : List Declaration) (n : List ℕ) (k : Spoken) (σ : Spot) (e : Elements) → ReadTo ks bytes σ false cursor.old e → Closes ds n k σ (rest_of cursor.old) → PartsFor (content_parts k) e made.now → DeclarationEnded ks bytes ds (declaration_of n k) result cursor.new e made.now }
{
    cursor.skip_blanks();
    let place = cursor.at;
    let [b'>', ..] = cursor.rest() else {
        return Err(misplaced(cursor));
    };
    if made.parts().is_none() {
        return Err(TextCause::TooManyParts.at(place));
    }
    cursor.advance(1);
    Ok(())
}
