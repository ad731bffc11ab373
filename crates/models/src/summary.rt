//! A summary: a value for each kind of part from the values of the parts it takes.

ghost use Rattle.models.specs.Told.{Keeps1, Keeps2};
ghost use Rattle.models.specs.Trees.Tree.{empty as empty_tree, symbol as symbol_tree, choice as choice_tree, sequence as sequence_tree, interleave as interleave_tree, count as count_tree, nonempty as nonempty_tree};
ghost use Rattle.models.specs.Trees.{Tree, Formed};

pub mod work;

use parts::part::Repeats;

/// Whoever implements it says by `means` what a value tells about a tree's
/// messages, and owes for each kind that true values taken give a true value.
/// The tree made is known to be well formed, so each tree taken has some
/// message, and the one that `nonempty` takes a nonempty one.
// Where two kinds get their values in one way, they still have a method each, since each
// kind has a law of its own.
pub trait Summary {
    type Value: Copy;

    ghost means: { Self → Tree → Self.Value → Type 0 };

    fn empty(&self) -> Self::Value
        ensures { means self.now empty_tree result };

    fn symbol(&self, symbol: u32) -> Self::Value
        ensures { Formed (symbol_tree symbol) → means self.now (symbol_tree symbol) result };

    fn choice(&self, left: Self::Value, right: Self::Value) -> Self::Value
        ensures { Keeps2 (means self.now) choice_tree left right result };

    fn sequence(&self, left: Self::Value, right: Self::Value) -> Self::Value
        ensures { Keeps2 (means self.now) sequence_tree left right result };

    fn interleave(&self, left: Self::Value, right: Self::Value) -> Self::Value
        ensures { Keeps2 (means self.now) interleave_tree left right result };

    fn count(&self, of: Self::Value, repeats: Repeats) -> Self::Value
        ensures { Keeps1 (means self.now) (λ t. count_tree t repeats.low repeats.high) of result };

    fn nonempty(&self, of: Self::Value) -> Self::Value
        ensures { Keeps1 (means self.now) nonempty_tree of result };
}
