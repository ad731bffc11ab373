//! The check of the sheet over which a set is made.

ghost use Rattle.set.specs.Keeping.{SheetChecked};

use parts::part::Part;
use parts::refusal::Refusal;
use store::windows::SHEET_PARTS;

/// 1: whether the sheet has exactly 8,192 parts.
pub fn check_sheet(sheet: &[Part]) -> Result<(), Refusal>
    ensures { SheetChecked sheet.now result }
{
    if sheet.len() == SHEET_PARTS {
        Ok(())
    } else {
        Err(Refusal::SheetLength {
            length: sheet.len(),
        })
    }
}
