//! What stands as content.

ghost use Rattle.std.specs.Prelude.{◌≡◌, false, List, [], ℕ};
ghost use Rattle.grammar.specs.Declarations.{Declaration};
ghost use Rattle.grammar.specs.Lists.State.{want};
ghost use Rattle.grammar.specs.Machine.Spot.{titled, kids};
ghost use Rattle.std.specs.Prelude.{None};
ghost use Rattle.text.specs.Contents.{made_of};
ghost use Rattle.text.specs.Declaring.{ReadTo, Ended};
ghost use Rattle.text.specs.Progress.{NamesGrow};

use super::children::children;
use super::mixed::mixed;
use super::steps::{misplaced, word};
use crate::content::Content;
use crate::cursor::Cursor;
use crate::elements::Elements;
use crate::fault::{PlacedCause, TextCause};

// Reads what the outermost group holds, to its end and its suffix.
fn group(
    cursor: &mut Cursor<'_>,
    elements: &mut Elements,
    made: &mut Content,
) -> Result<(), PlacedCause>
    ensures ended { (ks : List (List ℕ)) (bytes : List ℕ) (ds : List Declaration) (n : List ℕ) → ReadTo ks bytes (kids ds n (want [] None)) false cursor.old elements.old → made.old ≡ made_of [] → Ended ks bytes ds n result cursor.new elements.new made.new }
    ensures grow { NamesGrow elements.old elements.new }
{
    cursor.skip_blanks();
    match cursor.rest() {
        [b'#', ..] => {
            word(cursor, b"#PCDATA")?;
            mixed(cursor, elements, made)
        }
        _ => children(cursor, elements, made),
    }
}

/// Reads white space and what stands as content behind the name.
pub(super) fn content(
    cursor: &mut Cursor<'_>,
    elements: &mut Elements,
    made: &mut Content,
) -> Result<(), PlacedCause>
    ensures ended { (ks : List (List ℕ)) (bytes : List ℕ) (ds : List Declaration) (n : List ℕ) → ReadTo ks bytes (titled ds n) false cursor.old elements.old → made.old ≡ made_of [] → Ended ks bytes ds n result cursor.new elements.new made.new }
    ensures grow { NamesGrow elements.old elements.new }
{
    if !cursor.skip_blanks() {
        return Err(misplaced(cursor));
    }
    let place = cursor.at;
    match cursor.rest() {
        [b'E', ..] => {
            word(cursor, b"EMPTY")?;
            made.nothing();
            Ok(())
        }
        [b'A', ..] => {
            word(cursor, b"ANY")?;
            Err(TextCause::AnyContent.at(place))
        }
        [b'(', ..] => {
            cursor.advance(1);
            group(cursor, elements, made)
        }
        _ => Err(misplaced(cursor)),
    }
}
