//! Which symbols of a conflict-free model one symbol may not come after, worked up as a summary.

ghost use Rattle.models.specs.Checked.{tree_of};
ghost use Rattle.models.specs.Conflicts.{ConflictFree};
ghost use Rattle.set.specs.Ordering.{BesideIs, MarkedIs, OthersAre};

use models::model::Model;
use models::summary::Summary;
use models::summary::work::work_up;
use parts::part::{MOST_PARTS, Repeats};
use parts::symbols::SymbolSet;
use summaries::symbols::Symbols;

/// The symbols that the symbol may not come after.
#[derive(Clone, Copy)]
struct NotAfter {
    symbol: u32,
}

/// What is told of a part.
#[derive(Clone, Copy)]
struct Marked {
    /// The symbols of the part.
    symbols: SymbolSet,
    /// Those of them that the symbol, if it is one of them, may not come after.
    others: SymbolSet,
}

impl NotAfter {
    // The symbols of the other side, if the symbol stands in this one.
    fn beside(&self, side: Marked, other: Marked) -> SymbolSet
        ensures { BesideIs self.now.symbol side.symbols.bits other.symbols.bits result.bits }
    {
        if side.symbols.has(self.symbol) {
            other.symbols
        } else {
            SymbolSet::EMPTY
        }
    }
}

impl Summary for NotAfter {
    type Value = Marked;

    ghost means = { λ self t v. ConflictFree t → MarkedIs self.symbol t v.symbols.bits v.others.bits };

    fn empty(&self) -> Marked {
        Marked {
            symbols: Symbols.empty(),
            others: SymbolSet::EMPTY,
        }
    }

    fn symbol(&self, symbol: u32) -> Marked {
        Marked {
            symbols: Symbols.symbol(symbol),
            others: SymbolSet::EMPTY,
        }
    }

    fn choice(&self, left: Marked, right: Marked) -> Marked {
        let across = self.beside(left, right).union(self.beside(right, left));
        Marked {
            symbols: Symbols.choice(left.symbols, right.symbols),
            others: left.others.union(right.others).union(across),
        }
    }

    // the symbol goes first where it stands on the left
    fn sequence(&self, left: Marked, right: Marked) -> Marked {
        let across = self.beside(left, right);
        Marked {
            symbols: Symbols.sequence(left.symbols, right.symbols),
            others: left.others.union(right.others).union(across),
        }
    }

    fn interleave(&self, left: Marked, right: Marked) -> Marked {
        Marked {
            symbols: Symbols.interleave(left.symbols, right.symbols),
            others: left.others.union(right.others),
        }
    }

    fn count(&self, of: Marked, repeats: Repeats) -> Marked {
        Marked {
            symbols: Symbols.count(of.symbols, repeats),
            ..of
        }
    }

    fn nonempty(&self, of: Marked) -> Marked {
        Marked {
            symbols: Symbols.nonempty(of.symbols),
            ..of
        }
    }
}

/// The symbols of a conflict-free model that the symbol may not come after.
pub(crate) fn not_after(model: &Model<'_>, symbol: u32) -> SymbolSet
    ensures { ConflictFree (tree_of model.now) → OthersAre symbol (tree_of model.now) result.bits }
{
    let summary = NotAfter { symbol };
    // one array for each summary (docs/DECISIONS.md, "Lent slices")
    let mut work = [summary.empty(); MOST_PARTS];
    work_up(&summary, model, &mut work).others
}
