//! A verdict, printed with the names of the symbols.

ghost use Rattle.std.specs.Prelude.{Some};
ghost use Rattle.rules.specs.Texts.{upper_said};
ghost use Rattle.wording.specs.Verdicts.{verdict_said_by};

use crate::named_set::NamedSet;
use names::names::Names;
use rules::verdict::Verdict;
use std::fmt;

/// A verdict to be printed with the names of the symbols.
#[derive(Clone, Copy)]
pub struct NamedVerdict<'a> {
    pub verdict: Verdict,
    pub names: &'a Names,
}

/// What a verdict prints, with names in its sets.
impl fmt::Display for NamedVerdict<'_> {
    ghost output = { λ x. Some (verdict_said_by x.names.now x.verdict) };

    fn fmt<W: fmt::Write>(&self, f: &mut fmt::Formatter<W>) -> fmt::Result {
        let names = self.names;
        let family = self.verdict.family;
        let first = NamedSet {
            set: self.verdict.first,
            names,
        };
        let second = NamedSet {
            set: self.verdict.second,
            names,
        };
        let low = self.verdict.low;
        let upper = Upper(self.verdict.high);
        match family {
            1 | 2 => write!(f, "family {family}, {first}"),
            3 => write!(f, "family {family}, {first}, {low} to {upper}"),
            4 | 5 => write!(f, "family {family}, {first}, {second}"),
            _ => write!(f, "family {family}, {first}, {second}, {low} to {upper}"),
        }
    }
}

/// An upper end to be printed, where 0 is none. That of a verdict is private to its crate.
#[derive(Clone, Copy)]
struct Upper(u32);

impl fmt::Display for Upper {
    ghost output = { λ x. Some (upper_said x.0) };

    fn fmt<W: fmt::Write>(&self, f: &mut fmt::Formatter<W>) -> fmt::Result {
        match self.0 {
            0 => f.write_str("*"),
            high => write!(f, "{high}"),
        }
    }
}
