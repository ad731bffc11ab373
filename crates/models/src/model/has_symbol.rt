//! Whether a part is or holds a symbol part, which the check asks of what a nonempty part takes.

ghost use Rattle.std.specs.Prelude.{◌≡◌};
ghost use Rattle.models.specs.Trees.{has_symbol};

use crate::summary::Summary;
use parts::part::Repeats;

/// Yes exactly where the part is or holds a symbol part.
pub(crate) struct HasSymbol;

impl Summary for HasSymbol {
    type Value = bool;

    ghost means = { λ _ t v. v ≡ has_symbol t };

    fn empty(&self) -> bool {
        false
    }

    fn symbol(&self, _symbol: u32) -> bool {
        true
    }

    fn choice(&self, left: bool, right: bool) -> bool {
        left || right
    }

    // the code of `choice`, and so for an interleave; each has its own law
    fn sequence(&self, left: bool, right: bool) -> bool {
        left || right
    }

    fn interleave(&self, left: bool, right: bool) -> bool {
        left || right
    }

    fn count(&self, of: bool, _repeats: Repeats) -> bool {
        of
    }

    // the code of `count`; its law is another
    fn nonempty(&self, of: bool) -> bool {
        of
    }
}
