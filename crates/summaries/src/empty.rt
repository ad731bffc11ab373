//! The summary of whether the empty message fits.

ghost use Rattle.std.specs.Prelude.{[], Decides};
ghost use Rattle.models.specs.Checked.{tree_of};
ghost use Rattle.models.specs.Trees.{Fits};
ghost use Rattle.summaries.specs.Empties.{EmptyCount};

use models::model::Model;
use models::summary::Summary;
use models::summary::work::work_up;
use parts::part::{MOST_PARTS, Repeats};

/// Yes exactly where the empty message fits.
#[derive(Clone, Copy)]
pub struct EmptyFits;

impl Summary for EmptyFits {
    type Value = bool;

    ghost means = { λ _ t v. Decides v (Fits t []) };

    fn empty(&self) -> bool {
        true
    }

    fn symbol(&self, _symbol: u32) -> bool {
        false
    }

    fn choice(&self, left: bool, right: bool) -> bool {
        left | right
    }

    fn sequence(&self, left: bool, right: bool) -> bool {
        left & right
    }

    // the code of `sequence`; its law is another
    fn interleave(&self, left: bool, right: bool) -> bool {
        left & right
    }

    // a count repeats at least once, and nothing repeated is nothing
    fn count(&self, of: bool, _repeats: Repeats) -> bool {
        of
    }

    fn nonempty(&self, _of: bool) -> bool {
        false
    }
}

/// Whether the empty message fits the model.
pub fn empty_fits(model: &Model<'_>) -> bool
    ensures exact { Decides result (Fits (tree_of model.now) []) }
    ensures counts { EmptyCount }
{
    // one array for each summary (docs/DECISIONS.md, "Lent slices")
    let mut work = [EmptyFits.empty(); MOST_PARTS];
    work_up(&EmptyFits, model, &mut work)
}
