//! Mixed content: #PCDATA and names.

ghost use Rattle.std.specs.Prelude.{◌≡◌, Bool, true, false, List, [], ℕ, ◌==◌};
ghost use Rattle.grammar.specs.Bytes.{is_blank};
ghost use Rattle.grammar.specs.Declarations.{Declaration};
ghost use Rattle.grammar.specs.Machine.Spot.{mixed as mixed_spot};
ghost use Rattle.text.specs.Contents.{made_of};
ghost use Rattle.text.specs.Cursors.{rest_of};
ghost use Rattle.text.specs.Declaring.{ReadTo, PartsFor, mixed_parts, Ended, is_alone};
ghost use Rattle.text.specs.Fronts.{Past};
ghost use Rattle.text.specs.Progress.{NamesGrow};
ghost use Rattle.text.specs.declared.elements.Elements.{Elements};

use super::steps::{child, misplaced};
use crate::content::Content;
use crate::cursor::Cursor;
use crate::elements::Elements;
use crate::fault::PlacedCause;
use crate::join::Join;
use crate::mark::Mark;

// Reads the end of mixed content. Names want a `*`; without any it may stand or not.
fn mixed_end(cursor: &mut Cursor<'_>, made: &mut Content, alone: bool) -> Result<(), PlacedCause>
    ensures { (ks : List (List ℕ)) (bytes : List ℕ) (ds : List Declaration) (n : List ℕ) (ns : List (List ℕ)) (h : Bool) (e : Elements) → ReadTo ks bytes (mixed_spot ds n ns) h cursor.old e → Past is_blank (rest_of cursor.old) → Past (λ b. b == 124) (rest_of cursor.old) → alone ≡ is_alone ns → PartsFor (mixed_parts ns) e made.old → Ended ks bytes ds n result cursor.new e made.new }
{
    let [b')', ..] = cursor.rest() else {
        return Err(misplaced(cursor));
    };
    cursor.advance(1);
    let starred = cursor.rest().starts_with(b"*");
    if starred {
        cursor.advance(1);
    }
    match (alone, starred) {
        (true, _) => made.nothing(),
        (false, true) => made.mark(Mark::Any),
        (false, false) => return Err(misplaced(cursor)),
    }
    Ok(())
}

/// Reads what follows #PCDATA, to the end of the group and its suffix.
pub(super) fn mixed(
    cursor: &mut Cursor<'_>,
    elements: &mut Elements,
    made: &mut Content,
) -> Result<(), PlacedCause>
    ensures ended { (ks : List (List ℕ)) (bytes : List ℕ) (ds : List Declaration) (n : List ℕ) → ReadTo ks bytes (mixed_spot ds n []) false cursor.old elements.old → made.old ≡ made_of [] → Ended ks bytes ds n result cursor.new elements.new made.new }
    ensures grow { NamesGrow elements.old elements.new }
{
    let mut alone = true;
    cursor.skip_blanks();
    while let [b'|', ..] = cursor.rest() {
        cursor.advance(1);
        cursor.skip_blanks();
        let symbol = child(cursor, elements)?;
        made.symbol(symbol);
        if !alone {
            made.join(Join::Choice);
        }
        alone = false;
        cursor.skip_blanks();
    }
    mixed_end(cursor, made, alone)
}
