//! A declaration is handed over on the caller's sheet.

ghost use Rattle.std.specs.Prelude.{◌≡◌, ◌-◌, ◌≤◌, ◌++◌, true, List, length, replicate};
ghost use Rattle.models.specs.Sheets.{is_model};
ghost use Rattle.parts.specs.Parts.{blank};
ghost use Rattle.parts.specs.declared.part.Part.{Part};
ghost use Rattle.text.specs.Contents.{made_of};
ghost use Rattle.text.specs.Delivery.{Delivered};

use crate::content::Content;
use crate::declared::Declared;
use crate::element::Element;
use crate::refusal::ReadRefusal;
use models::model::check::check;
use parts::part::Part;

// Writes parts into a sheet, and blank parts behind them.
fn fill(sheet: &mut [Part], parts: &[Part])
    requires { length parts.now ≤ length sheet.old }
    ensures { sheet.new ≡ parts.now ++ replicate (length sheet.old - length parts.now) blank }
{
    sheet[..parts.len()].copy_from_slice(parts);
    sheet[parts.len()..].fill(Part::BLANK);
}

/// Writes the parts of a declaration into the sheet of 256 parts, and blank parts behind
/// them, and tells of it.
pub fn deliver<'t>(
    element: Element<'t>,
    made: &Content,
    sheet: &mut [Part],
) -> Result<Declared<'t>, ReadRefusal>
    requires { (length sheet.old ≡ 256) × ((all : List Part) × (made.now ≡ made_of all) × (is_model all ≡ true)) }
    ensures { (all : List Part) → made.now ≡ made_of all → is_model all ≡ true → Delivered element.entry all sheet.old result sheet.new }
{
    let Some(parts) = made.parts() else {
        unreachable()
    };
    check(parts)?;
    fill(sheet, parts);
    Ok(Declared {
        length: parts.len(),
        symbol: element.symbol,
        name: element.name,
        place: element.place,
    })
}
