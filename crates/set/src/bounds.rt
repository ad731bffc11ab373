//! How often a symbol of a conflict-free model may occur, worked up as a summary.

ghost use Rattle.std.specs.Prelude.{◌≡◌, ◌||◌, cond};
ghost use Rattle.models.specs.Checked.{tree_of};
ghost use Rattle.models.specs.Trees.{Bounds};
ghost use Rattle.set.specs.Bounded.{bounds_in};
ghost use Rattle.set.specs.Holding.{holds};

use models::model::Model;
use models::summary::Summary;
use models::summary::work::work_up;
use parts::part::{MOST_PARTS, Repeats};

/// The bounds of the symbol, which is one of the model's.
#[derive(Clone, Copy)]
struct BoundsOf {
    symbol: u32,
}

/// What is told of a part.
#[derive(Clone, Copy)]
struct Bounded {
    /// Whether the symbol stands in it.
    holds: bool,
    /// The bounds of the count that takes the symbol, or 1 and 1; where it does not stand, any.
    bounds: Repeats,
}

/// The bounds of a symbol that no count takes.
const ONCE: Repeats = Repeats { low: 1, high: 1 };

impl Summary for BoundsOf {
    type Value = Bounded;

    ghost means = { λ self t v. (v.holds ≡ holds self.symbol t) × (v.bounds ≡ bounds_in self.symbol t) };

    fn empty(&self) -> Bounded {
        Bounded {
            holds: false,
            bounds: ONCE,
        }
    }

    fn symbol(&self, symbol: u32) -> Bounded {
        Bounded {
            holds: symbol == self.symbol,
            bounds: ONCE,
        }
    }

    fn choice(&self, left: Bounded, right: Bounded) -> Bounded {
        whose(left, right)
    }

    // the code of `choice`, and so for an interleave; each has its own law
    fn sequence(&self, left: Bounded, right: Bounded) -> Bounded {
        whose(left, right)
    }

    fn interleave(&self, left: Bounded, right: Bounded) -> Bounded {
        whose(left, right)
    }

    fn count(&self, of: Bounded, repeats: Repeats) -> Bounded {
        Bounded {
            bounds: repeats,
            ..of
        }
    }

    fn nonempty(&self, of: Bounded) -> Bounded {
        of
    }
}

// The side that the symbol stands in tells of it.
fn whose(left: Bounded, right: Bounded) -> Bounded
    ensures { result ≡ record { holds = left.holds || right.holds; bounds = cond left.holds left.bounds right.bounds } }
{
    if left.holds { left } else { right }
}

/// The bounds of a symbol of a conflict-free model: those of the count that takes it, or
/// 1 and 1 where none does.
pub(crate) fn bounds_of(model: &Model<'_>, symbol: u32) -> Repeats
    ensures told { result ≡ bounds_in symbol (tree_of model.now) }
    ensures bounded { Bounds result.low result.high }
{
    let bounds = BoundsOf { symbol };
    // one array for each summary (docs/DECISIONS.md, "Lent slices")
    let mut work = [bounds.empty(); MOST_PARTS];
    work_up(&bounds, model, &mut work).bounds
}
