//! Sets of symbols, and how they are printed.

ghost use Rattle.std.specs.Prelude.{◌≡◌, ◌^◌, if◌then◌else◌, Some, Decides, bit_and, bit_or, length, nat_le};
ghost use Rattle.parts.specs.Sets.{In, EmptyIs, DifferenceIs, Taken, listed, members};

use crate::part::LAST_SYMBOL;
use std::fmt;

/// A set of symbols: the bit worth 2^s stands for symbol s. A symbol above 63
/// belongs to no set.
#[derive(Clone, Copy, PartialEq, Eq)]
pub struct SymbolSet {
    pub bits: u64,
}

impl SymbolSet {
    pub const EMPTY: SymbolSet = SymbolSet { bits: 0 };

    /// All symbols, which are 0 to 63.
    pub const ALL: SymbolSet = SymbolSet { bits: u64::MAX };

    /// The set of one symbol, empty where that is above 63. No `From<u32>`:
    /// it would read as the set with these bits.
    pub fn of(symbol: u32) -> SymbolSet
        ensures { result.bits ≡ (if nat_le symbol 63 then 2 ^ symbol else 0) }
    {
        if symbol <= LAST_SYMBOL {
            SymbolSet { bits: 1 << symbol }
        } else {
            SymbolSet::EMPTY
        }
    }

    pub fn has(&self, symbol: u32) -> bool
        ensures { Decides result (In self.now.bits symbol) }
    {
        symbol <= LAST_SYMBOL && (self.bits >> symbol) & 1 == 1
    }

    /// How many symbols it has, 0 to 64.
    pub fn len(&self) -> u32
        ensures { result ≡ length (members self.now.bits) }
    {
        self.bits.count_ones()
    }

    /// Whether it has no symbol.
    pub fn is_empty(&self) -> bool
        ensures { EmptyIs result self.now.bits }
    {
        self.len() == 0
    }

    /// Takes out the smallest symbol, if there is one. A loop over it goes through the
    /// symbols ascending.
    pub fn take_first(&mut self) -> Option<u32>
        ensures { Taken self.old.bits result self.new.bits }
    {
        if self.is_empty() {
            return None;
        }
        let symbol = self.bits.trailing_zeros();
        self.bits &= !(1 << symbol);
        Some(symbol)
    }

    /// The symbols of either.
    pub fn union(&self, other: SymbolSet) -> SymbolSet
        ensures { result.bits ≡ bit_or self.now.bits other.bits }
    {
        SymbolSet {
            bits: self.bits | other.bits,
        }
    }

    /// Its symbols that the other does not have.
    pub fn difference(&self, other: SymbolSet) -> SymbolSet
        ensures { DifferenceIs self.now.bits other.bits result.bits }
    {
        SymbolSet {
            bits: self.bits & !other.bits,
        }
    }

    /// The symbols of both.
    pub fn intersection(&self, other: SymbolSet) -> SymbolSet
        ensures { result.bits ≡ bit_and self.now.bits other.bits }
    {
        SymbolSet {
            bits: self.bits & other.bits,
        }
    }
}

/// The symbols in braces, ascending, with commas between them.
impl fmt::Display for SymbolSet {
    ghost output = { λ set. Some (listed set.bits) };

    fn fmt<W: fmt::Write>(&self, f: &mut fmt::Formatter<W>) -> fmt::Result {
        let mut gap = "";
        let mut rest = *self;
        f.write_str("{")?;
        while let Some(symbol) = rest.take_first() {
            write!(f, "{gap}{symbol}")?;
            gap = ",";
        }
        f.write_str("}")
    }
}
