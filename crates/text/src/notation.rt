//! Notations of texts of declarations.

ghost use Rattle.std.specs.Prelude.{◌≡◌, List, [], ℕ, Option};
ghost use Rattle.grammar.specs.Notations.{Notation as Which};
ghost use Rattle.grammar.specs.Declarations.{Declaration};
ghost use Rattle.grammar.specs.Faults.{GivesOne};
ghost use Rattle.text.specs.Between.{Between, GivesFirst, Declared};
ghost use Rattle.text.specs.Contents.{made_of};
ghost use Rattle.text.specs.Progress.{NamesGrow};

use crate::content::Content;
use crate::cursor::Cursor;
use crate::element::Element;
use crate::elements::Elements;
use crate::fault::PlacedCause;

/// How declarations are written. Whoever implements it reads one declaration after
/// another, and owes that each is the next one that the text gives (docs/TEXTS.md).
pub trait Notation {
    ghost which: { Which };

    /// Reads the next declaration, and makes the parts of its model; or finds that the text
    /// has ended, or its first fault.
    fn declaration<'t>(
        &self,
        cursor: &mut Cursor<'t>,
        elements: &mut Elements,
        made: &mut Content,
    ) -> Result<Option<Element<'t>>, PlacedCause>
        ensures declared { (ks : List (List ℕ)) (bytes : List ℕ) (ds : List Declaration) → Between which ks bytes ds cursor.old elements.old → made.old ≡ made_of [] → Declared which ks bytes ds result cursor.new elements.new made.new }
        ensures grow { NamesGrow elements.old elements.new };

    ghost some: { (ks : List (List ℕ)) (bytes : List ℕ) → GivesFirst which ks bytes [] };

    ghost one: { GivesOne which };
}
