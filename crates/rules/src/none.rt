//! The family that has no rules.

ghost use Rattle.std.specs.Prelude.{[]};

use crate::family::RuleFamily;
use crate::verdict::Verdict;
use models::model::Model;

/// It stands for nothing: no message breaks a rule of it.
#[derive(Clone, Copy)]
pub struct NoRules;

impl RuleFamily for NoRules {
    ghost rules = { λ _. [] };

    fn broken_by_message(&self, _message: &[u32]) -> Option<Verdict> {
        None
    }

    fn broken_by_model(&self, _model: &Model<'_>) -> Option<Verdict> {
        None
    }
}
