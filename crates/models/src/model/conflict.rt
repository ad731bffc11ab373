//! The first conflict of a model.

ghost use Rattle.std.specs.Prelude.{◌≡◌};
ghost use Rattle.models.specs.Checked.{tree_of};
ghost use Rattle.models.specs.Conflicts.{first_conflict_of, FirstExactly, NoneExactly};
ghost use Rattle.models.specs.Walk.{Clash, is_symbol_form, own_bits};

use crate::model::Model;
use parts::part::Form;
use parts::symbols::SymbolSet;

// Whether the part is a symbol already seen, or a count that stands after
// something else than a symbol part. An unknown kind, which no model has, clashes
// with nothing, so that nothing has to be shown of it.
fn clashes(form: Option<Form>, seen: SymbolSet, after_symbol: bool) -> bool
    ensures { Clash form seen.bits after_symbol result }
{
    match form {
        Some(Form::Symbol(symbol)) => seen.has(symbol),
        Some(Form::Count(_)) => !after_symbol,
        _ => false,
    }
}

// The symbol of a symbol part, as a set.
fn own_symbol(form: Option<Form>) -> SymbolSet
    ensures { result.bits ≡ own_bits form }
{
    match form {
        Some(Form::Symbol(symbol)) => SymbolSet::of(symbol),
        _ => SymbolSet::EMPTY,
    }
}

// Whether the part is a symbol part.
fn is_symbol_part(form: Option<Form>) -> bool
    ensures { result ≡ is_symbol_form form }
{
    matches!(form, Some(Form::Symbol(_)))
}

/// The place of the first part that is a count of something else than a symbol
/// part, or a symbol already met; none exactly where the model is conflict-free.
pub fn first_conflict(model: &Model<'_>) -> Option<usize>
    ensures first { result ≡ first_conflict_of (tree_of model.now) }
    ensures place { FirstExactly }
    ensures none { NoneExactly }
{
    let mut seen = SymbolSet::EMPTY;
    // what a count takes stands right before it
    let mut after_symbol = false;
    // the walk of `work_up`, with places
    for (place, part) in model.parts().iter().enumerate() {
        let form = Form::try_from(*part).ok();
        if clashes(form, seen, after_symbol) {
            return Some(place);
        }
        seen = seen.union(own_symbol(form));
        after_symbol = is_symbol_part(form);
    }
    None
}
