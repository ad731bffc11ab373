//! A declaration whose model is kept.

ghost use Rattle.std.specs.Prelude.{◌≡◌, ◌≤◌, ◌++◌, [], ◌∷◌, length, OnOk};
ghost use Rattle.listing.specs.Keeping.{KeptAs};
ghost use Rattle.listing.specs.declared.listed.Listed.{Listed};

use parts::part::Part;
use std::alloc::{AllocError, Global};
use text::declared::Declared;

/// One declaration of a text, and its model.
#[derive(Drop)]
pub struct Listed<'t> {
    /// a part of the text
    pub name: &'t [u8],
    pub symbol: u32,
    /// where the name stands in the text, in bytes from 0
    pub place: usize,
    /// 1 to 256
    pub parts: Vec<Part>,
}

/// Adds a declaration, with its parts from the front of the sheet.
pub(crate) fn keep<'t>(
    heap: Global,
    declared: Declared<'t>,
    sheet: &[Part],
    elements: &mut Vec<Listed<'t>>,
) -> Result<(), AllocError>
    requires { declared.length ≤ length sheet.now }
    ensures { OnOk result ((e : Listed) × KeptAs declared.entry sheet.now e × (elements.new.items ≡ elements.old.items ++ (e ∷ []))) }
{
    let parts = sheet[..declared.length].to_vec(heap)?;
    elements.push(Listed {
        name: declared.name,
        symbol: declared.symbol,
        place: declared.place,
        parts,
    })?;
    Ok(())
}
