//! The elements that texts have named, and those that this text has declared.

ghost use Rattle.std.specs.Prelude.{◌≡◌, ◌∷◌, [], List, ℕ};
ghost use Rattle.grammar.specs.Notations.{Notation};
ghost use Rattle.grammar.specs.Notations.Notation.{dtd};
ghost use Rattle.grammar.specs.Declarations.{Sign};
ghost use Rattle.grammar.specs.Declarations.Sign.{element, declared as declared_sign, inner};
ghost use Rattle.grammar.specs.Words.Sign.{names as name_sign};
ghost use Rattle.text.specs.Causes.{name_cause};
ghost use Rattle.text.specs.Progress.{ElementsAre, NamesGrow, TakenIn, SymbolIs};

use crate::fault::TextCause;
use names::names::{NameFault, Names};
use parts::symbols::SymbolSet;

/// How many declarations a text has at most.
pub const MOST_DECLARATIONS: u32 = 32;

impl From<NameFault> for TextCause {
    ghost from_gives = { λ fault cause. cause ≡ name_cause fault };

    fn from(fault: NameFault) -> TextCause {
        match fault {
            NameFault::TooLong => TextCause::LongName,
            NameFault::TooMany => TextCause::TooManyNames,
        }
    }
}

/// All names met so far, the symbols of those that this text has declared, and how many
/// of its declarations have begun.
#[derive(Drop)]
pub struct Elements {
    pub names: Names,
    pub declared: SymbolSet,
    pub begun: u32,
}

impl Elements {
    /// A text begins, with these names known.
    pub fn new(names: Names) -> Elements
        ensures same { result.names ≡ names }
        ensures first { (ν : Notation) → ElementsAre ν names [] result }
    {
        Elements {
            names,
            declared: SymbolSet::EMPTY,
            begun: 0,
        }
    }

    /// A declaration begins.
    pub fn begin(&mut self) -> Result<(), TextCause>
        ensures taken { (ks : List (List ℕ)) (ss : List Sign) → ElementsAre dtd ks ss self.old → TakenIn dtd ks ss element result self.new }
        ensures grow { NamesGrow self.old self.new }
    {
        if self.begun >= MOST_DECLARATIONS {
            return Err(TextCause::TooManyDeclarations);
        }
        self.begun += 1;
        Ok(())
    }

    /// The symbol of a name that stands in content.
    pub fn meet(&mut self, name: &[u8]) -> Result<u32, TextCause>
        ensures taken { (ks : List (List ℕ)) (ss : List Sign) → ElementsAre dtd ks ss self.old → TakenIn dtd ks ss (inner (name_sign name.now)) result self.new }
        ensures symbol { SymbolIs name.now result self.new }
        ensures grow { NamesGrow self.old self.new }
    {
        Ok(self.names.meet(name)?)
    }

    /// The symbol of a name that is declared.
    pub fn declare(&mut self, name: &[u8]) -> Result<u32, TextCause>
        ensures taken { (ks : List (List ℕ)) (ss : List Sign) → ElementsAre dtd ks ss self.old → TakenIn dtd ks ss (declared_sign name.now) result self.new }
        ensures symbol { SymbolIs name.now result self.new }
        ensures grow { NamesGrow self.old self.new }
    {
        let symbol = self.names.meet(name)?;
        if self.declared.has(symbol) {
            return Err(TextCause::DeclaredAgain);
        }
        self.declared = self.declared.union(SymbolSet::of(symbol));
        Ok(symbol)
    }
}
