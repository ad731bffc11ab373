//! All models of a text, and what is known afterwards.

ghost use Rattle.std.specs.Prelude.{◌≡◌, [], IfOk};
ghost use Rattle.listing.specs.Keeping.{GatheredBy};
ghost use Rattle.listing.specs.Listings.{ListingOf, ListsOne};

use crate::listed::{Listed, keep};
use names::vocabulary::Vocabulary;
use parts::part::{MOST_PARTS, Part};
use std::alloc::{AllocError, Global};
use text::fault::TextFault;
use text::notation::Notation;
use text::reader::Reader;
use text::refusal::ReadRefusal;

/// What a text declares.
#[derive(Drop)]
pub struct Listing<'t> {
    /// in the order of the text: all declarations, or those before its first fault
    pub elements: Vec<Listed<'t>>,
    /// none where the whole text was read
    pub fault: Option<TextFault>,
    /// the names known before, with those of the elements, and one text more
    pub vocabulary: Vocabulary,
}

// Adds what the reader gives, until none is left or a fault comes, which it gives back.
fn gather<'t, N: Notation + Drop>(
    heap: Global,
    reader: &mut Reader<'t, N>,
    elements: &mut Vec<Listed<'t>>,
) -> Result<Option<TextFault>, AllocError>
    requires { (reader.old.notation ≡ N.which) × (reader.old.given ≡ 0) × (elements.old.items ≡ []) }
    ensures { IfOk result (λ fault. GatheredBy reader.old reader.new elements.new.items fault) }
{
    let mut sheet = [Part::BLANK; MOST_PARTS];
    loop {
        match reader.next(&mut sheet) {
            Ok(Some(declared)) => keep(heap, declared, &sheet, elements)?,
            Ok(None) => return Ok(None),
            Err(ReadRefusal::Text(fault)) => return Ok(Some(fault)),
            Err(ReadRefusal::SheetLength { .. } | ReadRefusal::Table(_)) => unreachable(),
        }
    }
}

/// Reads a whole text, over the names known so far, and keeps all its models. The only error
/// is want of memory; the vocabulary is lost with it, so the program then ends.
pub fn list<'t, N: Notation + Drop>(
    heap: Global,
    notation: N,
    vocabulary: Vocabulary,
    text: &'t [u8],
) -> Result<Listing<'t>, AllocError>
    ensures listing { IfOk result (λ listing. ListingOf N.which vocabulary text.now listing) }
    ensures one { ListsOne N.which }
{
    let mut reader = Reader::open(notation, vocabulary, text);
    let mut elements = Vec::new(heap);
    match gather(heap, &mut reader, &mut elements) {
        Ok(fault) => Ok(Listing {
            elements,
            fault,
            vocabulary: reader.close(),
        }),
        Err(error) => Err(error),
    }
}
