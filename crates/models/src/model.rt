//! A checked model.

ghost use Rattle.std.specs.Prelude.{◌≡◌, true};
ghost use Rattle.models.specs.Sheets.{is_model};

use parts::part::Part;

pub mod calls;
pub mod check;
pub mod conflict;
mod has_symbol;

/// A sheet that has been checked: its 1 to 256 parts read to a tree. The check
/// makes one; whoever else makes one has to prove that its parts pass the check. It stays
/// a sheet, over the parts that were checked: a rule of the project (docs/DECISIONS.md,
/// "Lent slices").
#[derive(Clone, Copy)]
pub struct Model<'a> {
    pub parts: &'a [Part],
    pub ghost checked: { is_model parts.now ≡ true },
}
