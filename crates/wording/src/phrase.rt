//! Phrases that sentences are made of: what a message has of a set, that it has none of
//! it, and the number of occurrences that it has not.

ghost use Rattle.std.specs.Prelude.{Some};
ghost use Rattle.wording.specs.Sentences.{has_said, lacks_said, misses_said};

use crate::named_set::NamedSet;
use std::fmt;

/// A symbol of the set, which a message has.
#[derive(Clone, Copy)]
pub struct Has<'a>(pub NamedSet<'a>);

impl fmt::Display for Has<'_> {
    ghost output = { λ x. Some (has_said x.0.names.now x.0.set.bits) };

    fn fmt<W: fmt::Write>(&self, f: &mut fmt::Formatter<W>) -> fmt::Result {
        let elements = self.0.row(", ");
        match self.0.set.len() {
            0 => f.write_str("one of no elements"),
            1 => write!(f, "{elements}"),
            _ => write!(f, "one of {elements}"),
        }
    }
}

/// The symbols of the set, none of which a message has.
#[derive(Clone, Copy)]
pub struct Lacks<'a>(pub NamedSet<'a>);

impl fmt::Display for Lacks<'_> {
    ghost output = { λ x. Some (lacks_said x.0.names.now x.0.set.bits) };

    fn fmt<W: fmt::Write>(&self, f: &mut fmt::Formatter<W>) -> fmt::Result {
        let elements = self.0.row(", ");
        match self.0.set.len() {
            0 => f.write_str("none of no elements"),
            1 => write!(f, "no {elements}"),
            _ => write!(f, "none of {elements}"),
        }
    }
}

/// The fewest and the most occurrences, where 0 is no upper end, to which a message does
/// not keep.
#[derive(Clone, Copy)]
pub struct Misses {
    pub low: u32,
    pub high: u32,
}

impl fmt::Display for Misses {
    ghost output = { λ x. Some (misses_said x.low x.high) };

    fn fmt<W: fmt::Write>(&self, f: &mut fmt::Formatter<W>) -> fmt::Result {
        let low = self.low;
        match self.high {
            0 => write!(f, "fewer than {low}"),
            high if low == high => write!(f, "not exactly {low}"),
            high => write!(f, "not {low} to {high}"),
        }
    }
}
