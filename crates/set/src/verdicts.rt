//! The verdicts of the five families.

ghost use Rattle.std.specs.Prelude.{◌≡◌};
ghost use Rattle.set.specs.Five.{verdict, upper_bound as upper_bound_rule, lower_bound as lower_bound_rule, cardinality as cardinality_rule, co_occurrence as co_occurrence_rule, order as order_rule};

use parts::part::Repeats;
use parts::symbols::SymbolSet;
use rules::verdict::Verdict;

// A verdict of the family that says nothing more.
fn of_family(family: u32) -> Verdict
    ensures { result ≡ verdict family 0 0 0 0 }
{
    Verdict {
        family,
        first: SymbolSet::EMPTY,
        second: SymbolSet::EMPTY,
        low: 0,
        high: 0,
    }
}

pub(crate) fn upper_bound(set: SymbolSet) -> Verdict
    ensures { result ≡ (upper_bound_rule set.bits).verdict }
{
    Verdict {
        first: set,
        ..of_family(1)
    }
}

pub(crate) fn lower_bound(set: SymbolSet) -> Verdict
    ensures { result ≡ (lower_bound_rule set.bits).verdict }
{
    Verdict {
        first: set,
        ..of_family(2)
    }
}

pub(crate) fn cardinality(symbol: u32, bounds: Repeats) -> Verdict
    ensures { result ≡ (cardinality_rule symbol bounds).verdict }
{
    Verdict {
        first: SymbolSet::of(symbol),
        low: bounds.low,
        high: bounds.high,
        ..of_family(3)
    }
}

pub(crate) fn co_occurrence(first: SymbolSet, second: SymbolSet) -> Verdict
    ensures { result ≡ (co_occurrence_rule first.bits second.bits).verdict }
{
    Verdict {
        first,
        second,
        ..of_family(4)
    }
}

pub(crate) fn order(first: u32, second: u32) -> Verdict
    ensures { result ≡ (order_rule first second).verdict }
{
    Verdict {
        first: SymbolSet::of(first),
        second: SymbolSet::of(second),
        ..of_family(5)
    }
}
