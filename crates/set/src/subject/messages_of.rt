//! All messages of a model as what rules are asked about, through its summaries.

ghost use Rattle.std.specs.Prelude.{◌≡◌, ℕ, ◌<◌, ◌≤◌, Decides};
ghost use Rattle.models.specs.Checked.{tree_of};
ghost use Rattle.occurrences.specs.Figures.{figure};
ghost use Rattle.occurrences.specs.declared.figure.Most.TheVariants.{Ends, NoEnd};
ghost use Rattle.rules.specs.Rules.{SomeBreaks};
ghost use Rattle.set.specs.Holding.{symbols_in};

use super::Subject;
use crate::verdicts;
use models::model::Model;
use occurrences::figure::{Figure, Most};
use occurrences::occurs::occurrences_of;
use parts::part::Repeats;
use parts::symbols::SymbolSet;
use rules::verdict::Verdict;
use summaries::after::order_of;
use summaries::brings::brings_of;
use summaries::symbols::symbols_of;

#[derive(Clone, Copy)]
pub(crate) struct MessagesOf<'m> {
    model: Model<'m>,
    /// The symbols that messages have.
    symbols: SymbolSet,
    ghost all: { symbols.bits ≡ symbols_in (tree_of model) },
}

impl<'m> MessagesOf<'m> {
    pub(crate) fn of(model: &Model<'m>) -> MessagesOf<'m>
        ensures { tree_of result.model ≡ tree_of model.now }
    {
        MessagesOf {
            model: *model,
            symbols: symbols_of(model),
        }
    }
}

fn is_below(fewest: Figure, low: u32) -> bool
    ensures { (n : ℕ) → low ≤ 10000 → fewest ≡ figure n → Decides result (n < low) }
{
    fewest < Figure::from(low)
}

// High 0 is no upper end.
fn is_above(most: Most, high: u32) -> bool
    ensures ends { (n : ℕ) → high ≤ 10000 → most ≡ Ends (figure n) → Decides result ((0 < high) × (high < n)) }
    ensures endless { most ≡ NoEnd → Decides result (0 < high) }
{
    high > 0 && most > Most::Ends(Figure::from(high))
}

impl Subject for MessagesOf<'_> {
    ghost breaks = { λ self. SomeBreaks (tree_of self.model) };

    fn symbols(&self) -> SymbolSet {
        self.symbols
    }

    fn breaks_cardinality(&self, symbol: u32, bounds: Repeats) -> bool {
        let occurring = occurrences_of(&self.model, symbol);
        let Some(fewest) = occurring.fewest else {
            return false;
        };
        is_below(fewest, bounds.low) || is_above(occurring.most, bounds.high)
    }

    #[tactic(auto, using(crate::proofs::Subjects::brings_breaks))]
    fn breaks_co_occurrence(&self, first: SymbolSet, second: SymbolSet) -> bool {
        !brings_of(&self.model, first, second).brings
    }

    fn breaks_orders(&self, symbol: u32, others: SymbolSet) -> Option<Verdict> {
        let mut rest = others.intersection(self.symbols);
        while let Some(other) = rest.take_first() {
            if order_of(&self.model, symbol, other).after {
                return Some(verdicts::order(symbol, other));
            }
        }
        None
    }
}
