//! What is found out about one message, in a loop over its symbols.

ghost use Rattle.std.specs.Prelude.{◌≡◌, Decides};
ghost use Rattle.models.specs.Messages.{HasOneOf, occurrences};
ghost use Rattle.set.specs.Asking.{met_in, FirstOutside, LastAt};

use parts::symbols::SymbolSet;

/// The place of the first symbol that is not in the set.
pub(crate) fn first_outside(message: &[u32], set: SymbolSet) -> Option<usize>
    ensures { FirstOutside set.bits message.now result }
{
    for (place, symbol) in message.iter().enumerate() {
        if !set.has(*symbol) {
            return Some(place);
        }
    }
    None
}

/// Whether some symbol is in the set.
pub(crate) fn has_one_of(message: &[u32], set: SymbolSet) -> bool
    ensures { Decides result (HasOneOf set.bits message.now) }
{
    for symbol in message {
        if set.has(*symbol) {
            return true;
        }
    }
    false
}

/// How a symbol occurs in a message.
#[derive(Clone, Copy)]
pub(crate) struct Found {
    /// How often.
    pub(crate) count: usize,
    /// The place of the last time.
    pub(crate) last: Option<usize>,
}

/// How the symbol occurs.
pub(crate) fn find_symbol(message: &[u32], symbol: u32) -> Found
    ensures count { result.count ≡ occurrences symbol message.now }
    ensures last { LastAt symbol message.now result.last }
{
    let mut count = 0;
    let mut last = None;
    for (place, found) in message.iter().enumerate() {
        if *found == symbol {
            count += 1;
            last = Some(place);
        }
    }
    Found { count, last }
}

/// The symbols up to 63 that occur.
pub(crate) fn symbols_met(message: &[u32]) -> SymbolSet
    ensures { result.bits ≡ met_in message.now }
{
    let mut met = SymbolSet::EMPTY;
    for symbol in message {
        met = met.union(SymbolSet::of(*symbol));
    }
    met
}
