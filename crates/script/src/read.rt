//! From a word of a script to what it writes: a number, a part of a model, or a set.
ghost use Rattle.std.specs.Prelude.{◌≡◌};
ghost use Rattle.script.specs.Reads.{number_read, part_of_fields, part_read, set_read, SetHas};

use parts::part::Part;
use parts::symbols::SymbolSet;

/// The number that decimal digits write, if it fits.
pub fn number(text: &str) -> Option<u32>
    ensures { result ≡ number_read text.now }
{
    // `parse` takes a plus sign, and a script has none.
    if text.starts_with('+') {
        return None;
    }
    text.parse::<u32>().ok()
}

/// The part of four fields, if each is a number.
fn part_of(kind: &str, symbol: &str, low: &str, high: &str) -> Option<Part>
    ensures { result ≡ part_of_fields (number_read kind.now) (number_read symbol.now) (number_read low.now) (number_read high.now) }
{
    Some(Part {
        kind: number(kind)?,
        symbol: number(symbol)?,
        low: number(low)?,
        high: number(high)?,
    })
}

/// The part that a word writes as `kind:symbol:low:high`.
pub fn part(word: &str) -> Option<Part>
    ensures { result ≡ part_read word.now }
{
    let mut fields = word.split(':');
    let kind = fields.next()?;
    let symbol = fields.next()?;
    let low = fields.next()?;
    let high = fields.next()?;
    match fields.next() {
        None => part_of(kind, symbol, low, high),
        Some(_) => None,
    }
}

/// The set that a word writes as its symbols with commas between them, or as `-`.
pub fn set(word: &str) -> Option<SymbolSet>
    ensures read { result ≡ set_read word.now }
    ensures has { SetHas word.now result }
{
    if word == "-" {
        return Some(SymbolSet::EMPTY);
    }
    let mut seen = SymbolSet::EMPTY;
    for field in word.split(',') {
        seen = seen.union(SymbolSet::of(number(field)?));
    }
    Some(seen)
}
