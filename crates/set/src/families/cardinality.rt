//! Family 3: how often each symbol of the model may occur.

ghost use Rattle.models.specs.Checked.{tree_of};
ghost use Rattle.rules.specs.Rules.{FirstIs};
ghost use Rattle.set.specs.Five.{cardinality_rules};

use crate::bounds::bounds_of;
use crate::expected::Expected;
use crate::subject::Subject;
use crate::subject::messages_of::MessagesOf;
use crate::subject::one_message::OneMessage;
use crate::verdicts;
use models::model::Model;
use rules::family::RuleFamily;
use rules::verdict::Verdict;

#[derive(Clone, Copy)]
pub(crate) struct Cardinality<'a> {
    pub(crate) expected: Expected<'a>,
}

impl Cardinality<'_> {
    fn first_broken<S: Subject>(&self, subject: &S) -> Option<Verdict>
        ensures { FirstIs (S.breaks subject.now) (cardinality_rules (tree_of self.now.expected.model)) result }
    {
        let mut rest = self.expected.symbols.intersection(subject.symbols());
        while let Some(symbol) = rest.take_first() {
            let bounds = bounds_of(&self.expected.model, symbol);
            if subject.breaks_cardinality(symbol, bounds) {
                return Some(verdicts::cardinality(symbol, bounds));
            }
        }
        None
    }
}

impl RuleFamily for Cardinality<'_> {
    ghost rules = { λ self. cardinality_rules (tree_of self.expected.model) };

    fn broken_by_message(&self, message: &[u32]) -> Option<Verdict> {
        self.first_broken(&OneMessage::of(message))
    }

    fn broken_by_model(&self, model: &Model<'_>) -> Option<Verdict> {
        self.first_broken(&MessagesOf::of(model))
    }
}
