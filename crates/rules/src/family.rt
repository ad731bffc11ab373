//! A rule family: it stands for a list of rules and answers two questions about it.

ghost use Rattle.std.specs.Prelude.{List};
ghost use Rattle.models.specs.Checked.{tree_of};
ghost use Rattle.rules.specs.Rules.{Rule, Breaks, SomeBreaks, FirstIs};

use crate::verdict::Verdict;
use models::model::Model;

/// Whoever implements it says by `rules` what its list is, and owes both answers for
/// every message and every checked model. A rule may be any property of messages.
pub trait RuleFamily {
    ghost rules: { Self → List Rule };

    /// The verdict of the first rule in the list that the message breaks, if it breaks one.
    fn broken_by_message(&self, message: &[u32]) -> Option<Verdict>
        ensures { FirstIs (Breaks message.now) (rules self.now) result };

    /// The verdict of the first rule in the list that some message of the model breaks,
    /// if one is broken.
    fn broken_by_model(&self, model: &Model<'_>) -> Option<Verdict>
        ensures { FirstIs (SomeBreaks (tree_of model.now)) (rules self.now) result };
}

/// A family that is lent answers as itself.
impl<F: RuleFamily> RuleFamily for &F {
    ghost rules = { λ self. F.rules self.now };

    fn broken_by_message(&self, message: &[u32]) -> Option<Verdict> {
        (*self).broken_by_message(message)
    }

    fn broken_by_model(&self, model: &Model<'_>) -> Option<Verdict> {
        (*self).broken_by_model(model)
    }
}
