//! A verdict names a rule, and how that is printed.

ghost use Rattle.std.specs.Prelude.{Some};
ghost use Rattle.rules.specs.Texts.{upper_said, verdict_said};

use parts::symbols::SymbolSet;
use std::fmt;

/// What a rule is named by. What a rule does not use is 0, or the empty set.
#[derive(Clone, Copy, PartialEq, Eq)]
pub struct Verdict {
    /// The number of its family.
    pub family: u32,
    /// The symbols that the rule is about.
    pub first: SymbolSet,
    /// The symbols that it sets them against.
    pub second: SymbolSet,
    /// The fewest occurrences.
    pub low: u32,
    /// The most occurrences. In a rule about occurrences 0 is no upper end.
    pub high: u32,
}

/// Families 1 and 2 use one set, 3 a set and bounds, 4 and 5 two sets; of any other all
/// is told.
impl fmt::Display for Verdict {
    ghost output = { λ v. Some (verdict_said v) };

    fn fmt<W: fmt::Write>(&self, f: &mut fmt::Formatter<W>) -> fmt::Result {
        let family = self.family;
        let first = self.first;
        let second = self.second;
        let low = self.low;
        let upper = Upper(self.high);
        match family {
            1 | 2 => write!(f, "family {family}, {first}"),
            3 => write!(f, "family {family}, {first}, {low} to {upper}"),
            4 | 5 => write!(f, "family {family}, {first}, {second}"),
            _ => write!(f, "family {family}, {first}, {second}, {low} to {upper}"),
        }
    }
}

/// An upper end to be printed, where 0 is none.
#[derive(Clone, Copy)]
struct Upper(u32);

impl fmt::Display for Upper {
    ghost output = { λ x. Some (upper_said x.0) };

    fn fmt<W: fmt::Write>(&self, f: &mut fmt::Formatter<W>) -> fmt::Result {
        match self.0 {
            0 => f.write_str("*"),
            high => write!(f, "{high}"),
        }
    }
}
