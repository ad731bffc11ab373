//! What the rules of a family are asked about: one message, or all messages of a model.

ghost use Rattle.std.specs.Prelude.{Decides};
ghost use Rattle.models.specs.Trees.{Bounds};
ghost use Rattle.rules.specs.Rules.{Rule, FirstIs};
ghost use Rattle.set.specs.Five.{cardinality, co_occurrence};
ghost use Rattle.set.specs.Subjects.{OthersKept, orders_after};

use parts::part::Repeats;
use parts::symbols::SymbolSet;
use rules::verdict::Verdict;

pub(crate) mod messages_of;
pub(crate) mod one_message;

/// A subject says by `breaks` which rules it breaks, and tells of rules of three kinds
/// whether it does. So a family that has many goes through them once, for both questions.
pub(crate) trait Subject {
    ghost breaks: { Self → Rule → Type 0 };

    /// The symbols that it has, at least: it keeps the rules about how others occur, and
    /// that others do not come after one. The questions below may be asked of any symbol.
    fn symbols(&self) -> SymbolSet
        ensures { OthersKept (breaks self.now) result.bits };

    fn breaks_cardinality(&self, symbol: u32, bounds: Repeats) -> bool
        ensures { Bounds bounds.low bounds.high → Decides result (breaks self.now (cardinality symbol bounds)) };

    fn breaks_co_occurrence(&self, first: SymbolSet, second: SymbolSet) -> bool
        ensures { Decides result (breaks self.now (co_occurrence first.bits second.bits)) };

    /// Of the rules that the symbol does not come after another, for each of the others
    /// ascending, the verdict of the first that is broken.
    fn breaks_orders(&self, symbol: u32, others: SymbolSet) -> Option<Verdict>
        ensures { FirstIs (breaks self.now) (orders_after symbol others.bits) result };
}
