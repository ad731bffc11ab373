//! A set of symbols, printed by their names.

ghost use Rattle.std.specs.Prelude.{◌≡◌, Some};
ghost use Rattle.wording.specs.Symbols.{listed_by};

use crate::row::Row;
use names::names::Names;
use parts::symbols::SymbolSet;
use std::fmt;

/// A set of symbols to be printed by their names.
#[derive(Clone, Copy)]
pub struct NamedSet<'a> {
    pub set: SymbolSet,
    pub names: &'a Names,
}

impl<'a> NamedSet<'a> {
    // Its symbols in a row.
    pub(crate) fn row(&self, between: &'static str) -> Row<'a>
        ensures set { result.set ≡ self.now.set }
        ensures names { result.names.now ≡ self.now.names.now }
        ensures between { result.between.now ≡ between.now }
    {
        Row {
            set: self.set,
            names: self.names,
            between,
        }
    }
}

/// The names in braces, ascending by symbol, with commas between them.
impl fmt::Display for NamedSet<'_> {
    ghost output = { λ x. Some (listed_by x.names.now x.set.bits) };

    fn fmt<W: fmt::Write>(&self, f: &mut fmt::Formatter<W>) -> fmt::Result {
        let row = self.row(",");
        write!(f, "{{{row}}}")
    }
}
