//! The summary of how often a symbol occurs.

ghost use Rattle.std.specs.Prelude.{◌≡◌, ℕ};
ghost use Rattle.models.specs.Checked.{tree_of};
ghost use Rattle.models.specs.Trees.{Tree, Formed};
ghost use Rattle.models.specs.Trees.Tree.{choice as choice_tree, sequence as sequence_tree, interleave as interleave_tree, count as count_tree};
ghost use Rattle.parts.specs.Sets.{only};
ghost use Rattle.occurrences.specs.Figures.{FewestIs, MostIs, OccurringIs, figure, fewest_of_sides};

use crate::figure::{Figure, Most};
use models::model::Model;
use models::summary::Summary;
use models::summary::work::work_up;
use parts::part::{MOST_PARTS, Repeats};
use parts::symbols::SymbolSet;
use summaries::every::Every;

/// How often does the symbol occur.
#[derive(Clone, Copy)]
pub struct Occurs {
    pub symbol: u32,
}

/// What is told of a symbol.
#[derive(Clone, Copy)]
pub struct Occurring {
    /// The fewest occurrences in a message that has the symbol, if one has.
    pub fewest: Option<Figure>,
    /// The most occurrences in any message.
    pub most: Most,
    /// Whether every message, and every nonempty one, has the symbol.
    pub every: (bool, bool),
}

impl Occurs {
    fn every(&self) -> Every
        ensures { result.set.bits ≡ only self.now.symbol }
    {
        Every {
            set: SymbolSet::of(self.symbol),
        }
    }
}

impl Summary for Occurs {
    type Value = Occurring;

    ghost means = { λ self t v. OccurringIs self.symbol t v };

    fn empty(&self) -> Occurring {
        Occurring {
            fewest: None,
            most: Most::Ends(Figure::from(0)),
            every: self.every().empty(),
        }
    }

    fn symbol(&self, symbol: u32) -> Occurring {
        let every = self.every().symbol(symbol);
        if symbol == self.symbol {
            Occurring {
                fewest: Some(Figure::from(1)),
                most: Most::Ends(Figure::from(1)),
                every,
            }
        } else {
            Occurring {
                fewest: None,
                most: Most::Ends(Figure::from(0)),
                every,
            }
        }
    }

    fn choice(&self, left: Occurring, right: Occurring) -> Occurring {
        Occurring {
            fewest: fewest_of_either(left.fewest, right.fewest),
            most: left.most.max(right.most),
            every: self.every().choice(left.every, right.every),
        }
    }

    fn sequence(&self, left: Occurring, right: Occurring) -> Occurring {
        Occurring {
            fewest: fewest_side_by_side(left, right),
            most: most_side_by_side(left.most, right.most),
            every: self.every().sequence(left.every, right.every),
        }
    }

    // as `sequence`, by the other method of `Every`; its law is another
    fn interleave(&self, left: Occurring, right: Occurring) -> Occurring {
        Occurring {
            fewest: fewest_side_by_side(left, right),
            most: most_side_by_side(left.most, right.most),
            every: self.every().interleave(left.every, right.every),
        }
    }

    fn count(&self, of: Occurring, repeats: Repeats) -> Occurring {
        Occurring {
            fewest: fewest_repeated(of, repeats.low),
            most: most_repeated(of.most, repeats.high),
            every: self.every().count(of.every, repeats),
        }
    }

    // a message with the symbol is not empty
    fn nonempty(&self, of: Occurring) -> Occurring {
        Occurring {
            fewest: of.fewest,
            most: of.most,
            every: self.every().nonempty(of.every),
        }
    }
}

fn fewest_of_either(left: Option<Figure>, right: Option<Figure>) -> Option<Figure>
    ensures { (s : ℕ) (t u : Tree) → FewestIs s t left → FewestIs s u right → FewestIs s (choice_tree t u) result }
{
    match (left, right) {
        (Some(a), Some(b)) => Some(a.min(b)),
        _ => left.or(right),
    }
}

// A side that has the symbol in every message adds its fewest; the other may be
// taken without it.
fn fewest_of_both(left: Figure, right: Figure, every_left: bool, every_right: bool) -> Figure
    ensures { (a b : ℕ) → left ≡ figure a → right ≡ figure b → result ≡ figure (fewest_of_sides every_left every_right a b) }
{
    match (every_left, every_right) {
        (true, true) => left.plus(right),
        (true, false) => left,
        (false, true) => right,
        (false, false) => left.min(right),
    }
}

// As `fewest_of_either`, with another figure where both sides have one.
fn fewest_side_by_side(left: Occurring, right: Occurring) -> Option<Figure>
    ensures { (s : ℕ) (t u : Tree) → Formed t → Formed u → OccurringIs s t left → OccurringIs s u right → FewestIs s (sequence_tree t u) result × FewestIs s (interleave_tree t u) result }
{
    match (left.fewest, right.fewest) {
        (Some(a), Some(b)) => Some(fewest_of_both(a, b, left.every.0, right.every.0)),
        _ => left.fewest.or(right.fewest),
    }
}

fn most_side_by_side(left: Most, right: Most) -> Most
    ensures { (s : ℕ) (t u : Tree) → Formed t → Formed u → MostIs s t left → MostIs s u right → MostIs s (sequence_tree t u) result × MostIs s (interleave_tree t u) result }
{
    match (left, right) {
        (Most::NoEnd, _) | (_, Most::NoEnd) => Most::NoEnd,
        (Most::Ends(a), Most::Ends(b)) => Most::Ends(a.plus(b)),
    }
}

// Where some message lacks the symbol, one piece with it is enough.
fn fewest_repeated(of: Occurring, low: u32) -> Option<Figure>
    ensures { (s high : ℕ) (t : Tree) → Formed (count_tree t low high) → OccurringIs s t of → FewestIs s (count_tree t low high) result }
{
    let fewest = of.fewest?;
    if of.every.0 {
        Some(fewest.times(low))
    } else {
        Some(fewest)
    }
}

// Nothing repeated without end is still nothing.
fn most_repeated(of: Most, high: u32) -> Most
    ensures { (s low : ℕ) (t : Tree) → Formed (count_tree t low high) → MostIs s t of → MostIs s (count_tree t low high) result }
{
    match of {
        Most::NoEnd => Most::NoEnd,
        Most::Ends(most) if high > 0 => Most::Ends(most.times(high)),
        Most::Ends(most) if most.is_zero() => Most::Ends(most),
        Most::Ends(_) => Most::NoEnd,
    }
}

/// The fewest and the most occurrences of the symbol in messages of the model,
/// beside whether every message, and every nonempty one, has it.
pub fn occurrences_of(model: &Model<'_>, symbol: u32) -> Occurring
    ensures { OccurringIs symbol (tree_of model.now) result }
{
    let occurs = Occurs { symbol };
    // one array for each summary, of bytes that are 0 (docs/DECISIONS.md, "Lent slices")
    let scratch = Occurring {
        fewest: None,
        most: Most::Ends(Figure::Exactly(0)),
        every: (false, false),
    };
    let mut work = [scratch; MOST_PARTS];
    work_up(&occurs, model, &mut work)
}
