//! The symbols of a set in a row, by their names.

ghost use Rattle.std.specs.Prelude.{Some};
ghost use Rattle.wording.specs.Symbols.{row_said};

use crate::symbol::NamedSymbol;
use names::names::Names;
use parts::symbols::SymbolSet;
use std::fmt;

/// The symbols of a set, ascending, with the same text between each two.
#[derive(Clone, Copy)]
pub struct Row<'a> {
    pub set: SymbolSet,
    pub names: &'a Names,
    pub between: &'static str,
}

impl fmt::Display for Row<'_> {
    ghost output = { λ x. Some (row_said x.between.now x.names.now x.set.bits) };

    fn fmt<W: fmt::Write>(&self, f: &mut fmt::Formatter<W>) -> fmt::Result {
        let names = self.names;
        let mut gap = "";
        let mut rest = self.set;
        while let Some(symbol) = rest.take_first() {
            let named = NamedSymbol { symbol, names };
            write!(f, "{gap}{named}")?;
            gap = self.between;
        }
        Ok(())
    }
}
