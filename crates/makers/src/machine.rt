//! The family of a pay-out machine that cannot take an empty message.

ghost use Rattle.makers.specs.Machines.{machine_rules};

use models::model::Model;
use parts::symbols::SymbolSet;
use rules::family::RuleFamily;
use rules::verdict::Verdict;
use summaries::empty::empty_fits;

/// A pay-out machine. It has one rule: the message is not empty.
#[derive(Clone, Copy)]
pub struct Machine;

const NOT_EMPTY: Verdict = Verdict {
    family: 8,
    first: SymbolSet::EMPTY,
    second: SymbolSet::EMPTY,
    low: 0,
    high: 0,
};

impl RuleFamily for Machine {
    ghost rules = { λ _. machine_rules };

    fn broken_by_message(&self, message: &[u32]) -> Option<Verdict> {
        message.is_empty().then_some(NOT_EMPTY)
    }

    fn broken_by_model(&self, model: &Model<'_>) -> Option<Verdict> {
        empty_fits(model).then_some(NOT_EMPTY)
    }
}
