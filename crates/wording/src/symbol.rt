//! A symbol, printed by its name.

ghost use Rattle.std.specs.Prelude.{◌≡◌, MatchOption, Some, decimal};
ghost use Rattle.wording.specs.Symbols.{symbol_said};

use names::names::Names;
use std::{fmt, str};

/// A symbol to be printed by its name.
#[derive(Clone, Copy)]
pub struct NamedSymbol<'a> {
    pub symbol: u32,
    pub names: &'a Names,
}

impl NamedSymbol<'_> {
    // The name, if the symbol has one that is text.
    fn text(&self) -> Option<&str>
        ensures { let said = symbol_said self.now.names.now self.now.symbol in
            MatchOption result (said ≡ decimal self.now.symbol) (λ text. said ≡ text.now) }
    {
        match self.names.name(self.symbol) {
            Some(name) => str::from_utf8(name).ok(),
            None => None,
        }
    }
}

/// The name; the number where there is no name that is text.
impl fmt::Display for NamedSymbol<'_> {
    ghost output = { λ x. Some (symbol_said x.names.now x.symbol) };

    fn fmt<W: fmt::Write>(&self, f: &mut fmt::Formatter<W>) -> fmt::Result {
        let symbol = self.symbol;
        match self.text() {
            Some(name) => f.write_str(name),
            None => write!(f, "{symbol}"),
        }
    }
}
