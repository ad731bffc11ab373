//! Element declarations of a DTD (docs/TEXTS.md).

ghost use Rattle.std.specs.Prelude.{◌≡◌, Bool, [], List, ℕ};
ghost use Rattle.grammar.specs.Notations.Notation.{dtd};
ghost use Rattle.grammar.specs.Declarations.{Declaration};
ghost use Rattle.text.specs.Contents.{made_of};
ghost use Rattle.grammar.specs.Machine.Spot.{outside};
ghost use Rattle.text.specs.Declaring.{ReadTo, DeclarationRead};
ghost use Rattle.text.specs.Progress.{NamesGrow};
ghost use Rattle.grammar.proofs.Whole.{gives_some};
ghost use Rattle.grammar.proofs.Faults.{gives_one};

use crate::content::Content;
use crate::cursor::Cursor;
use crate::element::Element;
use crate::elements::Elements;
use crate::fault::PlacedCause;
use crate::notation::Notation;

mod children;
mod content;
mod mixed;
mod opening;
mod steps;

/// The notation of a DTD: element declarations of XML 1.0, without parameter entities and
/// colons.
#[derive(Clone, Copy)]
pub struct Dtd;

// Reads the next declaration, if the text has one.
fn declaration<'t>(
    cursor: &mut Cursor<'t>,
    elements: &mut Elements,
    made: &mut Content,
) -> Result<Option<Element<'t>>, PlacedCause>
    ensures read { (ks : List (List ℕ)) (bytes : List ℕ) (ds : List Declaration) (h : Bool) → ReadTo ks bytes (outside ds) h cursor.old elements.old → made.old ≡ made_of [] → DeclarationRead ks bytes ds result cursor.new elements.new made.new }
    ensures grow { NamesGrow elements.old elements.new }
{
    if !opening::begin(cursor, elements)? {
        return Ok(None);
    }
    let element = opening::title(cursor, elements)?;
    content::content(cursor, elements, made)?;
    opening::end(cursor, made)?;
    Ok(Some(element))
}

impl Notation for Dtd {
    ghost which = { dtd };

    ghost some = { gives_some };

    ghost one = { gives_one };

    fn declaration<'t>(
        &self,
        cursor: &mut Cursor<'t>,
        elements: &mut Elements,
        made: &mut Content,
    ) -> Result<Option<Element<'t>>, PlacedCause> {
        declaration(cursor, elements, made)
    }
}
