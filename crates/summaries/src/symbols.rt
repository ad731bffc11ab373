//! The summary of the symbols that messages have.

ghost use Rattle.models.specs.Checked.{tree_of};
ghost use Rattle.summaries.specs.SymbolsOf.{SymbolsAre, StandingAre};

use models::model::Model;
use models::summary::Summary;
use models::summary::work::work_up;
use parts::part::{MOST_PARTS, Repeats};
use parts::symbols::SymbolSet;

/// The symbols that messages have.
#[derive(Clone, Copy)]
pub struct Symbols;

impl Summary for Symbols {
    type Value = SymbolSet;

    ghost means = { λ _ t v. SymbolsAre t v.bits };

    fn empty(&self) -> SymbolSet {
        SymbolSet::EMPTY
    }

    fn symbol(&self, symbol: u32) -> SymbolSet {
        SymbolSet::of(symbol)
    }

    fn choice(&self, left: SymbolSet, right: SymbolSet) -> SymbolSet {
        left.union(right)
    }

    // the code of `choice`, and so for an interleave; each has its own law
    fn sequence(&self, left: SymbolSet, right: SymbolSet) -> SymbolSet {
        left.union(right)
    }

    fn interleave(&self, left: SymbolSet, right: SymbolSet) -> SymbolSet {
        left.union(right)
    }

    fn count(&self, of: SymbolSet, _repeats: Repeats) -> SymbolSet {
        of
    }

    // the code of `count`; its law is another
    fn nonempty(&self, of: SymbolSet) -> SymbolSet {
        of
    }
}

/// The symbols of the model: those that some message of it has, which are those
/// of its symbol parts.
pub fn symbols_of(model: &Model<'_>) -> SymbolSet
    ensures exact { SymbolsAre (tree_of model.now) result.bits }
    ensures standing { StandingAre (tree_of model.now) result.bits }
{
    // one array for each summary (docs/DECISIONS.md, "Lent slices")
    let mut work = [Symbols.empty(); MOST_PARTS];
    work_up(&Symbols, model, &mut work)
}
