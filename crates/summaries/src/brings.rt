//! The summary of whether a symbol of one set always brings one of another.

ghost use Rattle.std.specs.Prelude.{◌≡◌, ◌&&◌, ◌||◌};
ghost use Rattle.models.specs.Checked.{tree_of};
ghost use Rattle.summaries.specs.Brought.{BroughtIs};

use crate::every::{Every, both_or_other};
use models::model::Model;
use models::summary::Summary;
use models::summary::work::work_up;
use parts::part::{MOST_PARTS, Repeats};
use parts::symbols::SymbolSet;

/// Has every message with a symbol of the first set one of the second.
#[derive(Clone, Copy)]
pub struct Brings {
    pub first: SymbolSet,
    pub second: Every,
}

/// What is told of two sets.
#[derive(Clone, Copy)]
pub struct Brought {
    /// Whether every message with a symbol of the first has one of the second.
    pub brings: bool,
    /// Whether every message, and every nonempty one, has a symbol of the second.
    pub every: (bool, bool),
}

impl Summary for Brings {
    type Value = Brought;

    ghost means = { λ self t v. BroughtIs self.first.bits self.second.set.bits t v };

    fn empty(&self) -> Brought {
        Brought {
            brings: true,
            every: self.second.empty(),
        }
    }

    fn symbol(&self, symbol: u32) -> Brought {
        Brought {
            brings: !self.first.has(symbol) | self.second.set.has(symbol),
            every: self.second.symbol(symbol),
        }
    }

    fn choice(&self, left: Brought, right: Brought) -> Brought {
        Brought {
            brings: left.brings & right.brings,
            every: self.second.choice(left.every, right.every),
        }
    }

    fn sequence(&self, left: Brought, right: Brought) -> Brought {
        Brought {
            brings: side_by_side(left, right),
            every: self.second.sequence(left.every, right.every),
        }
    }

    // as `sequence`, by the other method of `Every`; its law is another
    fn interleave(&self, left: Brought, right: Brought) -> Brought {
        Brought {
            brings: side_by_side(left, right),
            every: self.second.interleave(left.every, right.every),
        }
    }

    // a message that breaks it, repeated, still does
    fn count(&self, of: Brought, repeats: Repeats) -> Brought {
        Brought {
            brings: of.brings,
            every: self.second.count(of.every, repeats),
        }
    }

    // a message with a symbol is not empty
    fn nonempty(&self, of: Brought) -> Brought {
        Brought {
            brings: of.brings,
            every: self.second.nonempty(of.every),
        }
    }
}

// What one side does not bring, the other side must always have.
fn side_by_side(left: Brought, right: Brought) -> bool
    ensures { result ≡ ((left.brings || right.every.0) && (left.every.0 || right.brings)) }
{
    both_or_other(left.brings, left.every.0, right.brings, right.every.0)
}

/// Whether in the model a symbol of the first set always brings one of the
/// second, beside the pair for the second. It takes the sets and not a `Brings`:
/// a caller has sets.
pub fn brings_of(model: &Model<'_>, first: SymbolSet, second: SymbolSet) -> Brought
    ensures { BroughtIs first.bits second.bits (tree_of model.now) result }
{
    let second = Every { set: second };
    let brings = Brings { first, second };
    // one array for each summary, of bytes that are 0 (docs/DECISIONS.md, "Lent slices")
    let scratch = Brought {
        brings: false,
        every: (false, false),
    };
    let mut work = [scratch; MOST_PARTS];
    work_up(&brings, model, &mut work)
}
