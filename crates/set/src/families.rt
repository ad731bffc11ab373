//! The five rule families of an expected model, a file for each, and their chain.
//! Only this crate makes them, of a model that was found conflict-free.

ghost use Rattle.models.specs.Checked.{tree_of};
ghost use Rattle.set.specs.Chained.{AllOf};

pub(crate) mod cardinality;
pub(crate) mod co_occurrence;
pub(crate) mod lower_bound;
pub(crate) mod order;
pub(crate) mod upper_bound;

use crate::expected::Expected;
use cardinality::Cardinality;
use co_occurrence::CoOccurrence;
use lower_bound::LowerBound;
use order::SymbolOrder;
use rules::chain::Chain;
use upper_bound::UpperBound;

/// The five, one after another.
pub(crate) type Five<'a> = Chain<
    UpperBound<'a>,
    Chain<LowerBound<'a>, Chain<Cardinality<'a>, Chain<CoOccurrence<'a>, SymbolOrder<'a>>>>,
>;

/// The five families of the model.
pub(crate) fn five<'a>(expected: Expected<'a>) -> Five<'a>
    ensures { AllOf (tree_of expected.entry.model) result.first.expected result.second.first.expected result.second.second.first.expected result.second.second.second.first.expected result.second.second.second.second.expected }
{
    let order = SymbolOrder { expected };
    let from_co_occurrence = Chain::of(CoOccurrence { expected }, order);
    let from_cardinality = Chain::of(Cardinality { expected }, from_co_occurrence);
    let from_lower_bound = Chain::of(LowerBound { expected }, from_cardinality);
    Chain::of(UpperBound { expected }, from_lower_bound)
}
