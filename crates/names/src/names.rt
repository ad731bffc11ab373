//! The names that are known, and the symbol of each.

ghost use Rattle.std.specs.Prelude.{◌≡◌, ◌<◌, ◌≤◌, false, [], ◌∷◌, ◌++◌, IfSome, take, length, slice_get};
ghost use Rattle.names.specs.Numbering.{is_known};
ghost use Rattle.std.specs.Option.{option_copied};
ghost use Rattle.names.specs.Kept.{AreKept, HasSymbol, Found, Met};

use crate::name::Name;
use std::array;
use std::marker::Model;

/// How many names are known at most.
pub const MOST_NAMES: usize = 64;

/// How many bytes a name has at most.
pub const MOST_NAME_BYTES: usize = 32;

/// Up to 64 names of up to 32 bytes each, all different, in the order in which they
/// were first met. The place of a name, counted from 0, is its symbol. What bytes a
/// name may have is not asked here.
#[derive(Drop)]
pub struct Names {
    names: [Name; MOST_NAMES],
    len: usize,
}

/// Why a name is not taken.
#[derive(Clone, Copy)]
pub enum NameFault {
    /// it has more than 32 bytes
    TooLong,
    /// it is new, and 64 names are known
    TooMany,
}

// Clauses see the names that are known, in order.
impl Model for Names {
    ghost use Rattle.std.specs.Prelude.{◌≤◌, List, ℕ, take};
    ghost use Rattle.names.specs.Kept.{AreKept};

    ghost Value = { List (List ℕ) };

    ghost view = { λ t. take t.len t.names };

    ghost invariant = { λ t. (t.len ≤ 64) × AreKept (take t.len t.names) };
}

impl Names {
    /// No names.
    pub fn new() -> Names
        ensures { result ≡ [] }
    {
        Names {
            names: array::from_fn(|_| Name::empty()),
            len: 0,
        }
    }

    // The names that are known, in order.
    fn known(&self) -> &[Name]
        ensures names { result.now ≡ self.now }
        ensures kept { AreKept self.now }
    {
        &self.names[..self.len]
    }

    /// How many names are known, 0 to 64.
    pub fn len(&self) -> usize
        ensures size { result ≡ length self.now }
        ensures kept { AreKept self.now }
    {
        self.known().len()
    }

    /// The symbol of a name, if it is known.
    pub fn symbol(&self, name: &[u8]) -> Option<u32>
        ensures found { Found self.now name.now result }
        ensures kept { AreKept self.now }
    {
        for (place, known) in self.known().iter().enumerate() {
            if known.bytes() == name {
                return Some(place as u32);
            }
        }
        None
    }

    /// The name of a symbol, if it is that of one.
    pub fn name(&self, symbol: u32) -> Option<&[u8]>
        ensures there { option_copied result ≡ slice_get self.now symbol }
        ensures same { IfSome result (λ name. HasSymbol self.now name.now symbol) }
        ensures kept { AreKept self.now }
    {
        let name = self.known().get(symbol as usize)?;
        Some(name.bytes())
    }

    // Adds a new name behind the others; gives its symbol.
    fn add(&mut self, name: &[u8]) -> u32
        requires { (length self.old < 64) × (length name.now ≤ 32) × (is_known self.old name.now ≡ false) }
        ensures added { self.new ≡ self.old ++ (name.now ∷ []) }
        ensures last { result ≡ length self.old }
        ensures kept { AreKept self.new }
    {
        let symbol = self.len as u32;
        self.names[self.len] = Name::of(name);
        self.len += 1;
        symbol
    }

    /// The symbol of a name, which is known from now on. A name that is refused
    /// leaves all as it was.
    pub fn meet(&mut self, name: &[u8]) -> Result<u32, NameFault>
        ensures met { Met self.old name.now result self.new }
        ensures kept { AreKept self.new }
    {
        match self.symbol(name) {
            Some(symbol) => Ok(symbol),
            None if name.len() > MOST_NAME_BYTES => Err(NameFault::TooLong),
            None if self.len() == MOST_NAMES => Err(NameFault::TooMany),
            None => Ok(self.add(name)),
        }
    }

    /// Keeps the first `len` names, all where there are no more.
    pub fn truncate(&mut self, len: usize)
        ensures first { self.new ≡ take len self.old }
        ensures kept { AreKept self.new }
    {
        if len < self.len {
            self.len = len;
        }
    }
}
