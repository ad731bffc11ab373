//! The summary of whether every message has a symbol of a set.

ghost use Rattle.std.specs.Prelude.{◌≡◌, ◌&&◌, ◌||◌};
ghost use Rattle.models.specs.Checked.{tree_of};
ghost use Rattle.summaries.specs.Always.{EveryHas};

use models::model::Model;
use models::summary::Summary;
use models::summary::work::work_up;
use parts::part::{MOST_PARTS, Repeats};
use parts::symbols::SymbolSet;

/// Does every message have a symbol of the set, and does every nonempty one.
#[derive(Clone, Copy)]
pub struct Every {
    pub set: SymbolSet,
}

impl Summary for Every {
    // a pair and no struct (docs/DECISIONS.md, "The pair of a set")
    type Value = (bool, bool);

    ghost means = { λ self t v. EveryHas self.set.bits t v };

    fn empty(&self) -> (bool, bool) {
        (false, true)
    }

    fn symbol(&self, symbol: u32) -> (bool, bool) {
        let has = self.set.has(symbol);
        (has, has)
    }

    fn choice(&self, left: (bool, bool), right: (bool, bool)) -> (bool, bool) {
        (left.0 & right.0, left.1 & right.1)
    }

    fn sequence(&self, left: (bool, bool), right: (bool, bool)) -> (bool, bool) {
        side_by_side(left, right)
    }

    // the code of `sequence`; its law is another
    fn interleave(&self, left: (bool, bool), right: (bool, bool)) -> (bool, bool) {
        side_by_side(left, right)
    }

    // a message without the set's symbols, repeated, is still without
    fn count(&self, of: (bool, bool), _repeats: Repeats) -> (bool, bool) {
        of
    }

    fn nonempty(&self, of: (bool, bool)) -> (bool, bool) {
        (of.1, of.1)
    }
}

// A message put together of one from each side has none of the set's symbols only if
// neither has; it is nonempty if one of them is.
fn side_by_side(left: (bool, bool), right: (bool, bool)) -> (bool, bool)
    ensures { result ≡ ((left.0 || right.0), ((left.1 || right.0) && (left.0 || right.1))) }
{
    let (every_left, nonempty_left) = left;
    let (every_right, nonempty_right) = right;
    (
        every_left | every_right,
        both_or_other(nonempty_left, every_left, nonempty_right, every_right),
    )
}

/// Whether what is so of each side is so of the two put together, where a side whose
/// messages all have a symbol of the set makes up for the other.
pub(crate) fn both_or_other(left: bool, every_left: bool, right: bool, every_right: bool) -> bool
    ensures { result ≡ ((left || every_right) && (every_left || right)) }
{
    (left | every_right) & (every_left | right)
}

/// Whether every message of the model has a symbol of the set, and whether
/// every nonempty one has.
pub fn every_of(model: &Model<'_>, set: SymbolSet) -> (bool, bool)
    ensures { EveryHas set.bits (tree_of model.now) result }
{
    let every = Every { set };
    // one array for each summary, of bytes that are 0 (docs/DECISIONS.md, "Lent slices")
    let mut work = [(false, false); MOST_PARTS];
    work_up(&every, model, &mut work)
}
