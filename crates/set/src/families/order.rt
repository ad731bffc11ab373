//! Family 5: which symbols of the model may not come after which.

ghost use Rattle.models.specs.Checked.{tree_of};
ghost use Rattle.rules.specs.Rules.{FirstIs};
ghost use Rattle.set.specs.Five.{order_rules};

use crate::expected::Expected;
use crate::precedence::not_after;
use crate::subject::Subject;
use crate::subject::messages_of::MessagesOf;
use crate::subject::one_message::OneMessage;
use models::model::Model;
use rules::family::RuleFamily;
use rules::verdict::Verdict;

#[derive(Clone, Copy)]
pub(crate) struct SymbolOrder<'a> {
    pub(crate) expected: Expected<'a>,
}

impl SymbolOrder<'_> {
    fn first_broken<S: Subject>(&self, subject: &S) -> Option<Verdict>
        ensures { FirstIs (S.breaks subject.now) (order_rules (tree_of self.now.expected.model)) result }
    {
        let mut rest = self.expected.symbols.intersection(subject.symbols());
        while let Some(symbol) = rest.take_first() {
            let others = not_after(&self.expected.model, symbol);
            if let Some(verdict) = subject.breaks_orders(symbol, others) {
                return Some(verdict);
            }
        }
        None
    }
}

impl RuleFamily for SymbolOrder<'_> {
    ghost rules = { λ self. order_rules (tree_of self.expected.model) };

    fn broken_by_message(&self, message: &[u32]) -> Option<Verdict> {
        self.first_broken(&OneMessage::of(message))
    }

    fn broken_by_model(&self, model: &Model<'_>) -> Option<Verdict> {
        self.first_broken(&MessagesOf::of(model))
    }
}
