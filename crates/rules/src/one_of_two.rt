//! A family that is one of two.

ghost use Rattle.rules.specs.OneOfTwo.{rules_of_either};

use crate::family::RuleFamily;
use crate::verdict::Verdict;
use either::Either;
use models::model::Model;

/// Its list is that of the family that is there. So compares of one season can hang families
/// of different types behind them; nested, it serves any number of types.
impl<F: RuleFamily, G: RuleFamily> RuleFamily for Either<F, G> {
    ghost rules = { rules_of_either F.rules G.rules };

    fn broken_by_message(&self, message: &[u32]) -> Option<Verdict> {
        match self {
            Either::Left(family) => family.broken_by_message(message),
            Either::Right(family) => family.broken_by_message(message),
        }
    }

    fn broken_by_model(&self, model: &Model<'_>) -> Option<Verdict> {
        match self {
            Either::Left(family) => family.broken_by_model(model),
            Either::Right(family) => family.broken_by_model(model),
        }
    }
}
