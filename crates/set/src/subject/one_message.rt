//! One message as what rules are asked about.

ghost use Rattle.std.specs.Prelude.{◌≡◌, Decides};
ghost use Rattle.models.specs.Messages.{HasOneOf};
ghost use Rattle.models.specs.Trees.{Between};
ghost use Rattle.rules.specs.Rules.{Breaks};
ghost use Rattle.set.specs.Asking.{met_in};

use super::Subject;
use crate::message::{find_symbol, symbols_met};
use crate::verdicts;
use parts::part::Repeats;
use parts::symbols::SymbolSet;
use rules::verdict::Verdict;

#[derive(Clone, Copy)]
pub(crate) struct OneMessage<'m> {
    message: &'m [u32],
    /// Its symbols up to 63.
    met: SymbolSet,
    ghost all: { met.bits ≡ met_in message.now },
}

impl<'m> OneMessage<'m> {
    pub(crate) fn of(message: &'m [u32]) -> OneMessage<'m>
        ensures { result.message.now ≡ message.now }
    {
        OneMessage {
            message,
            met: symbols_met(message),
        }
    }

    fn has_one_of(&self, set: SymbolSet) -> bool
        ensures { Decides result (HasOneOf set.bits self.now.message.now) }
    {
        !self.met.intersection(set).is_empty()
    }
}

fn is_between(count: usize, bounds: Repeats) -> bool
    ensures { Decides result (Between bounds.low bounds.high count) }
{
    bounds.low as usize <= count && (bounds.high == 0 || count <= bounds.high as usize)
}

impl Subject for OneMessage<'_> {
    ghost breaks = { λ self. Breaks self.message.now };

    fn symbols(&self) -> SymbolSet {
        self.met
    }

    fn breaks_cardinality(&self, symbol: u32, bounds: Repeats) -> bool {
        let count = find_symbol(self.message, symbol).count;
        count > 0 && !is_between(count, bounds)
    }

    fn breaks_co_occurrence(&self, first: SymbolSet, second: SymbolSet) -> bool {
        self.has_one_of(first) && !self.has_one_of(second)
    }

    // a symbol comes after those that stand before its last place
    fn breaks_orders(&self, symbol: u32, others: SymbolSet) -> Option<Verdict> {
        let last = find_symbol(self.message, symbol).last?;
        let before = symbols_met(&self.message[..last]);
        let other = before.intersection(others).take_first()?;
        Some(verdicts::order(symbol, other))
    }
}
