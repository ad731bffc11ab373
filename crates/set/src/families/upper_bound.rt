//! Family 1: no other symbols than the model's.

ghost use Rattle.models.specs.Checked.{tree_of};
ghost use Rattle.set.specs.Five.{upper_bound_rules};

use crate::expected::Expected;
use crate::message::first_outside;
use crate::verdicts;
use models::model::Model;
use rules::family::RuleFamily;
use rules::verdict::Verdict;
use summaries::symbols::symbols_of;

#[derive(Clone, Copy)]
pub(crate) struct UpperBound<'a> {
    pub(crate) expected: Expected<'a>,
}

impl RuleFamily for UpperBound<'_> {
    ghost rules = { λ self. upper_bound_rules (tree_of self.expected.model) };

    fn broken_by_message(&self, message: &[u32]) -> Option<Verdict> {
        let symbols = self.expected.symbols;
        first_outside(message, symbols)?;
        Some(verdicts::upper_bound(symbols))
    }

    fn broken_by_model(&self, model: &Model<'_>) -> Option<Verdict> {
        let symbols = self.expected.symbols;
        if symbols_of(model).difference(symbols).is_empty() {
            return None;
        }
        Some(verdicts::upper_bound(symbols))
    }
}
