//! The line that is told of an element.

ghost use Rattle.std.specs.Prelude.{Some};
ghost use Rattle.report.specs.Lines.{line_said, side_of, place_said, finding_said};

use crate::finding::Finding;
use crate::side::Side;
use names::names::Names;
use std::fmt;
use text::position::Position;
use wording::named_verdict::NamedVerdict;
use wording::sentence::Sentence;
use wording::symbol::NamedSymbol;

/// What is found of an element of `here`, whose name stands at `place` there; `there` is the
/// other text.
#[derive(Clone, Copy)]
pub struct Line<'a, 't> {
    pub here: Side<'a, 't>,
    pub there: Side<'a, 't>,
    pub names: &'a Names,
    pub symbol: u32,
    pub place: usize,
    pub finding: Finding,
}

// A place of a text, as its path and the line.
#[derive(Clone, Copy)]
struct Place<'a, 't> {
    side: Side<'a, 't>,
    place: usize,
}

impl fmt::Display for Place<'_, '_> {
    ghost output = { λ x. Some (place_said (side_of x.side) x.place) };

    fn fmt<W: fmt::Write>(&self, f: &mut fmt::Formatter<W>) -> fmt::Result {
        let path = self.side.path;
        let line = Position::of(self.side.text, self.place).line;
        write!(f, "{path}:{line}")
    }
}

// What is found, without the element.
#[derive(Clone, Copy)]
struct Told<'a, 't> {
    line: Line<'a, 't>,
}

impl fmt::Display for Told<'_, '_> {
    ghost output = { λ x. Some (finding_said x.line.names.now (side_of x.line.here) (side_of x.line.there) x.line.finding) };

    fn fmt<W: fmt::Write>(&self, f: &mut fmt::Formatter<W>) -> fmt::Result {
        let names = self.line.names;
        match self.line.finding {
            Finding::Included => f.write_str("included"),
            Finding::Breaks(verdict) => {
                let named = NamedVerdict { verdict, names };
                let sentence = Sentence { verdict, names };
                write!(f, "{named}; {sentence}")
            }
            Finding::Conflict { name, part } => {
                let place = Place {
                    side: self.line.there,
                    place: name,
                };
                write!(
                    f,
                    "not compared; the model at {place} has a conflict at part {part}"
                )
            }
            Finding::Alone => {
                let path = self.line.here.path;
                write!(f, "declared in {path} alone")
            }
        }
    }
}

/// The path, the line, the element's name, and what is found.
impl fmt::Display for Line<'_, '_> {
    ghost output = { λ x. Some (line_said x.names.now (side_of x.here) (side_of x.there) x.symbol x.place x.finding) };

    fn fmt<W: fmt::Write>(&self, f: &mut fmt::Formatter<W>) -> fmt::Result {
        let place = Place {
            side: self.here,
            place: self.place,
        };
        let name = NamedSymbol {
            symbol: self.symbol,
            names: self.names,
        };
        let told = Told { line: *self };
        write!(f, "{place}: {name}: {told}")
    }
}
