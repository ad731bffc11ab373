//! Family 2: some symbol of the model, unless the empty message fits.

ghost use Rattle.models.specs.Checked.{tree_of};
ghost use Rattle.set.specs.Five.{lower_bound_rules};
ghost use Rattle.set.specs.Asking.{WantedIs};

use crate::expected::Expected;
use crate::message::has_one_of;
use crate::verdicts;
use models::model::Model;
use parts::symbols::SymbolSet;
use rules::family::RuleFamily;
use rules::verdict::Verdict;
use summaries::empty::empty_fits;
use summaries::every::every_of;

#[derive(Clone, Copy)]
pub(crate) struct LowerBound<'a> {
    pub(crate) expected: Expected<'a>,
}

impl LowerBound<'_> {
    /// The symbols of which a message has to have one, if it has to.
    fn wanted(&self) -> Option<SymbolSet>
        ensures { WantedIs (tree_of self.now.expected.model) result }
    {
        if empty_fits(&self.expected.model) {
            return None;
        }
        Some(self.expected.symbols)
    }
}

impl RuleFamily for LowerBound<'_> {
    ghost rules = { λ self. lower_bound_rules (tree_of self.expected.model) };

    // the message need not be empty to have none of the symbols
    fn broken_by_message(&self, message: &[u32]) -> Option<Verdict> {
        let wanted = self.wanted()?;
        if has_one_of(message, wanted) {
            return None;
        }
        Some(verdicts::lower_bound(wanted))
    }

    fn broken_by_model(&self, model: &Model<'_>) -> Option<Verdict> {
        let wanted = self.wanted()?;
        let (every, _) = every_of(model, wanted);
        if every {
            return None;
        }
        Some(verdicts::lower_bound(wanted))
    }
}
