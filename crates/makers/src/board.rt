//! The family of a board that can show only some symbols.

ghost use Rattle.makers.specs.Boards.{board_rules};
ghost use Rattle.makers.specs.Found.{SymbolsMet, FirstUnshown};

use models::model::Model;
use parts::symbols::SymbolSet;
use rules::family::RuleFamily;
use rules::verdict::Verdict;
use summaries::symbols::symbols_of;

/// A board. For each symbol up to 63 that it cannot show, ascending, it has the rule
/// that the symbol does not occur in the message.
#[derive(Clone, Copy)]
pub struct Board {
    /// The symbols that it can show.
    pub shown: SymbolSet,
}

impl Board {
    /// The verdict about the smallest symbol of the set that it cannot show.
    #[tactic(auto, using(crate::proofs::Smallest::none_unshown, crate::proofs::Smallest::one_unshown))]
    fn first_unshown(&self, symbols: SymbolSet) -> Option<Verdict>
        ensures { FirstUnshown self.now.shown.bits symbols.bits result }
    {
        let symbol = symbols.difference(self.shown).take_first()?;
        Some(Verdict {
            family: 7,
            first: SymbolSet::of(symbol),
            second: SymbolSet::EMPTY,
            low: 0,
            high: 0,
        })
    }
}

impl RuleFamily for Board {
    ghost rules = { λ self. board_rules self.shown.bits };

    #[tactic(auto, using(crate::proofs::Boards::message_first))]
    fn broken_by_message(&self, message: &[u32]) -> Option<Verdict> {
        self.first_unshown(symbols_met(message))
    }

    #[tactic(auto, using(crate::proofs::Boards::model_first))]
    fn broken_by_model(&self, model: &Model<'_>) -> Option<Verdict> {
        self.first_unshown(symbols_of(model))
    }
}

/// The symbols up to 63 that occur.
#[tactic(auto, using(crate::proofs::Meeting::none_met, crate::proofs::Meeting::met_more))]
fn symbols_met(message: &[u32]) -> SymbolSet
    ensures { SymbolsMet message.now result.bits }
{
    let mut met = SymbolSet::EMPTY;
    for symbol in message {
        met = met.union(SymbolSet::of(*symbol));
    }
    met
}
