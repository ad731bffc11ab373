//! The windows of a sheet, one for each number, and what is written into one.

ghost use Rattle.std.specs.Prelude.{◌≡◌, ◌<◌, ◌≤◌, ◌≢◌, [], length, replicate};
ghost use Rattle.parts.specs.Parts.{blank};
ghost use Rattle.models.specs.Checked.{parts_of};
ghost use Rattle.store.specs.Windows.{written, Placed, WindowIs};

use crate::slots::MODELS;
use models::model::Model;
use parts::part::{MOST_PARTS, Part};
use parts::refusal::Refusal;

/// How many parts a sheet has that keeps models.
pub const SHEET_PARTS: usize = MODELS * MOST_PARTS;

/// The place of a number's window on a sheet of so many parts, which is that of its slot.
pub fn place_of(sheet_parts: usize, number: u32) -> Result<usize, Refusal>
    ensures { Placed sheet_parts number result }
{
    if sheet_parts == SHEET_PARTS && 1 <= number && number as usize <= MODELS {
        Ok(number as usize - 1)
    } else {
        Err(Refusal::NoSuchNumber { number })
    }
}

// Writes the parts, and blank parts after them, into the window at a place.
fn write(sheet: &mut [Part], place: usize, parts: &[Part])
    requires { (length sheet.old ≡ 8192) × (place < 32) × (length parts.now ≤ 256) }
    ensures { sheet.new ≡ written sheet.old place parts.now }
{
    let start = MOST_PARTS * place;
    let middle = start + parts.len();
    let end = start + MOST_PARTS;
    sheet[start..middle].copy_from_slice(parts);
    sheet[middle..end].fill(Part::BLANK);
}

/// Writes a model, and blank parts after it, into the window of a number; gives its place.
pub fn write_model(sheet: &mut [Part], number: u32, model: &Model<'_>) -> Result<usize, Refusal>
    ensures { WindowIs number (parts_of model.now) sheet.old result sheet.new }
{
    let place = place_of(sheet.len(), number)?;
    write(sheet, place, model.parts());
    Ok(place)
}

/// Fills the window of a number with blank parts; gives its place.
pub fn clear(sheet: &mut [Part], number: u32) -> Result<usize, Refusal>
    ensures { WindowIs number [] sheet.old result sheet.new }
{
    let place = place_of(sheet.len(), number)?;
    write(sheet, place, &[]);
    Ok(place)
}

/// Fills a sheet of 8,192 parts with blank parts; leaves another as it is.
pub fn clear_all(sheet: &mut [Part])
    ensures filled { length sheet.old ≡ 8192 → sheet.new ≡ replicate 8192 blank }
    ensures unaltered { length sheet.old ≢ 8192 → sheet.new ≡ sheet.old }
{
    if sheet.len() == SHEET_PARTS {
        sheet.fill(Part::BLANK);
    }
}
