//! The check of a table of parts, which makes a model of it.

ghost use Rattle.std.specs.Prelude.{◌≡◌, ◌+◌, ◌<◌, ◌≤◌, List, [], length, IfOk};
ghost use Rattle.models.specs.Checked.{parts_of, tree_of, told as answered};
ghost use Rattle.models.specs.Checking.{flags, flag_taken, Admitted, Answers};
ghost use Rattle.models.specs.Refused.{RefusedExactly};
ghost use Rattle.models.specs.Sheets.{reading, table_answer, tree, step};
ghost use Rattle.models.specs.Told.{Told, AllFormed};
ghost use Rattle.models.specs.Trees.{Tree, Inhabited};
ghost use Rattle.models.specs.Written.{TakenExactly};
ghost use Rattle.parts.specs.Stacks.{depth, room};

use crate::model::Model;
use crate::model::has_symbol::HasSymbol;
use crate::summary::work::apply;
use parts::part::{Form, MOST_PARTS, Part};
use parts::refusal::{PartFault, Refusal};
use parts::stack::Stack;

// Whether a nonempty part takes a part with a symbol; the others need none.
fn symbol_taken(form: Form, taken: Option<bool>) -> bool
    ensures { result ≡ flag_taken form taken }
{
    match (form, taken) {
        (Form::Nonempty, Some(flag)) => flag,
        _ => true,
    }
}

// Asks the questions of one part, and lets it wait.
fn check_part(place: usize, part: Part, waiting: &mut Stack<'_, bool>) -> Result<(), PartFault>
    requires { depth waiting.old < room waiting.old }
    ensures grows { depth waiting.new ≤ depth waiting.old + 1 }
    ensures kept { room waiting.new ≡ room waiting.old }
    ensures admitted { (ts : List Tree) → Told flags ts waiting.old.waiting → AllFormed ts → Admitted place (step part ts) result waiting.new.waiting }
{
    let Ok(form) = Form::try_from(part) else {
        return Err(PartFault::UnknownKind { place });
    };
    if !part.fields_fit() {
        return Err(PartFault::BadFields { place });
    }
    if waiting.len() < form.takes() {
        return Err(PartFault::TooFewWaiting { place });
    }
    if !symbol_taken(form, waiting.last()) {
        return Err(PartFault::NoSymbolTaken { place });
    }
    apply(&HasSymbol, form, waiting);
    Ok(())
}

// Asks the questions of all parts, in turn.
fn check_parts(parts: &[Part]) -> Result<(), PartFault>
    requires { length parts.now ≤ 256 }
    ensures { Answers (reading 0 parts.now []) result }
{
    // one array for each summary (docs/DECISIONS.md, "Lent slices")
    let mut flags = [false; MOST_PARTS];
    let mut waiting = Stack::new(&mut flags);
    for (place, part) in parts.iter().enumerate() {
        check_part(place, *part, &mut waiting)?;
    }
    if waiting.len() == 1 {
        Ok(())
    } else {
        Err(PartFault::NotOneWaiting {
            length: parts.len(),
        })
    }
}

// Asks the one question of the whole table, and then those of its parts.
fn check_table(parts: &[Part]) -> Result<(), Refusal>
    ensures { table_answer parts.now ≡ answered (λ _. tree parts.now) result }
{
    if parts.is_empty() || parts.len() > MOST_PARTS {
        return Err(Refusal::TableLength {
            length: parts.len(),
        });
    }
    check_parts(parts)?;
    Ok(())
}

/// Checks a table: 1 to 256 parts, then each part in turn, then that one waits.
pub fn check<'a>(parts: &'a [Part]) -> Result<Model<'a>, Refusal>
    ensures answer { table_answer parts.now ≡ answered tree_of result }
    ensures parts { IfOk result (λ model. parts_of model ≡ parts.now) }
    ensures taken { TakenExactly }
    ensures refused { RefusedExactly }
    ensures messages { IfOk result (λ model. Inhabited (tree_of model)) }
{
    check_table(parts)?;
    Ok(Model { parts })
}
