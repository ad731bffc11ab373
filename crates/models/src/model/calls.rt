//! What a checked model tells of itself.

ghost use Rattle.std.specs.Prelude.{◌≡◌, true};
ghost use Rattle.models.specs.Checked.{parts_of};
ghost use Rattle.models.specs.Sheets.{is_model};

use super::Model;
use parts::part::Part;

impl<'a> Model<'a> {
    /// Its parts, in sheet order.
    pub fn parts(&self) -> &'a [Part]
        ensures same { result.now ≡ parts_of self.now }
        ensures checked { is_model result.now ≡ true }
    {
        self.parts
    }
}
