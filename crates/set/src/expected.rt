//! A conflict-free model. The model that is expected, or judged by, has to be one.

ghost use Rattle.std.specs.Prelude.{◌≡◌, Some, None, MatchResult};
ghost use Rattle.models.specs.Checked.{parts_of, tree_of};
ghost use Rattle.models.specs.Conflicts.{first_conflict_of};
ghost use Rattle.parts.specs.Refusals.{notice};
ghost use Rattle.set.specs.Holding.{symbols_in};
ghost use Rattle.set.specs.Questions.{at_place};

use models::model::Model;
use models::model::conflict::first_conflict;
use parts::refusal::Refusal;
use parts::symbols::SymbolSet;
use summaries::symbols::symbols_of;

/// A conflict-free model with its symbols, which most families ask for.
#[derive(Clone, Copy)]
pub(crate) struct Expected<'a> {
    pub(crate) model: Model<'a>,
    pub(crate) symbols: SymbolSet,
    ghost free: { first_conflict_of (tree_of model) ≡ None },
    ghost all: { symbols.bits ≡ symbols_in (tree_of model) },
}

impl<'a> Expected<'a> {
    pub(crate) fn of(model: &Model<'a>) -> Result<Expected<'a>, Refusal>
        ensures { MatchResult result (λ expected. parts_of expected.model ≡ parts_of model.now) (λ refusal. Some (notice refusal) ≡ at_place 11 (first_conflict_of (tree_of model.now))) }
    {
        match first_conflict(model) {
            Some(place) => Err(Refusal::Conflict { place }),
            None => Ok(Expected {
                model: *model,
                symbols: symbols_of(model),
            }),
        }
    }
}
