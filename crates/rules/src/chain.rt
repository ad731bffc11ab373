//! Two rule families one after the other.

ghost use Rattle.std.specs.Prelude.{◌≡◌, ◌++◌};
ghost use Rattle.rules.specs.Rules.{AnswersFixed};

use crate::family::RuleFamily;
use crate::verdict::Verdict;
use models::model::Model;

/// Its list is the first family's and then the second's; so chains may be chained.
#[derive(Clone, Copy, Drop)]
pub struct Chain<F, G> {
    first: F,
    second: G,
}

impl<F: RuleFamily, G: RuleFamily> Chain<F, G> {
    /// The first family, and then the second.
    #[tactic(auto, using(crate::proofs::Firsts::one_answer))]
    pub fn of(first: F, second: G) -> Chain<F, G>
        ensures made { (result.first ≡ first) × (result.second ≡ second) }
        ensures fixed { AnswersFixed (F.rules first) × AnswersFixed (G.rules second) × AnswersFixed (F.rules first ++ G.rules second) }
    {
        Chain { first, second }
    }
}

impl<F: RuleFamily, G: RuleFamily> RuleFamily for Chain<F, G> {
    ghost rules = { λ self. F.rules self.first ++ G.rules self.second };

    #[tactic(auto, using(crate::proofs::Firsts::first_there, crate::proofs::Firsts::first_after))]
    fn broken_by_message(&self, message: &[u32]) -> Option<Verdict> {
        match self.first.broken_by_message(message) {
            None => self.second.broken_by_message(message),
            broken => broken,
        }
    }

    #[tactic(auto, using(crate::proofs::Firsts::first_there, crate::proofs::Firsts::first_after))]
    fn broken_by_model(&self, model: &Model<'_>) -> Option<Verdict> {
        match self.first.broken_by_model(model) {
            None => self.second.broken_by_model(model),
            broken => broken,
        }
    }
}
