//! How often a symbol occurs, as far as it is known, and how that is printed.

ghost use Rattle.std.specs.Prelude.{◌≡◌, ℕ, ◌+◌, ◌*◌, ◌≤◌, Decides, Some};
ghost use Rattle.occurrences.specs.Figures.{figure};
ghost use Rattle.occurrences.specs.Texts.{figure_said, most_said};

use parts::part::MOST_REPEATS;
use std::fmt;

/// A number of occurrences, as far as it is known. No bound of a count is above
/// 10,000, so numbers above it need not be told apart. The cases ascend, for the
/// derived order. No `Option`: its `None` would be taken for that of the fewest, and
/// would be the lowest and not the highest.
#[derive(Clone, Copy, PartialEq, Eq, PartialOrd, Ord)]
pub enum Figure {
    /// This number, which is at most 10,000.
    Exactly(u32),
    /// A number above 10,000.
    Above,
}

/// The most occurrences. The cases ascend here too. No `Option`: its `None` would
/// be taken for that of the fewest, where no message has the symbol, and would be
/// the lowest and not the highest.
#[derive(Clone, Copy, PartialEq, Eq, PartialOrd, Ord)]
pub enum Most {
    Ends(Figure),
    /// There is always a message with more.
    NoEnd,
}

/// What is known of a number.
impl From<u32> for Figure {
    ghost from_gives = { λ number f. f ≡ figure number };

    fn from(number: u32) -> Figure {
        if number <= MOST_REPEATS {
            Figure::Exactly(number)
        } else {
            Figure::Above
        }
    }
}

// Each promise is of figures that are known of some number, since an enum can have no
// invariant.
impl Figure {
    pub(crate) fn is_zero(self) -> bool
        ensures { (a : ℕ) → self ≡ figure a → Decides result (a ≡ 0) }
    {
        self == Figure::Exactly(0)
    }

    pub(crate) fn plus(self, other: Figure) -> Figure
        ensures { (a b : ℕ) → self ≡ figure a → other ≡ figure b → result ≡ figure (a + b) }
    {
        match (self, other) {
            (Figure::Exactly(a), Figure::Exactly(b)) => Figure::from(a.saturating_add(b)),
            _ => Figure::Above,
        }
    }

    pub(crate) fn times(self, repeats: u32) -> Figure
        ensures { (a : ℕ) → 1 ≤ repeats → self ≡ figure a → result ≡ figure (repeats * a) }
    {
        match self {
            Figure::Above => Figure::Above,
            Figure::Exactly(a) => Figure::from(repeats.saturating_mul(a)),
        }
    }
}

impl fmt::Display for Figure {
    ghost output = { λ f. Some (figure_said f) };

    fn fmt<W: fmt::Write>(&self, f: &mut fmt::Formatter<W>) -> fmt::Result {
        match self {
            Figure::Exactly(number) => write!(f, "{number}"),
            Figure::Above => f.write_str("above 10000"),
        }
    }
}

impl fmt::Display for Most {
    ghost output = { λ m. Some (most_said m) };

    fn fmt<W: fmt::Write>(&self, f: &mut fmt::Formatter<W>) -> fmt::Result {
        match self {
            Most::Ends(figure) => write!(f, "{figure}"),
            Most::NoEnd => f.write_str("no end"),
        }
    }
}
