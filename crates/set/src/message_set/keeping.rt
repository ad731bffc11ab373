//! How a set keeps its models: each in its window of the sheet, its slot telling of it.

ghost use Rattle.std.specs.Prelude.{◌≡◌, [], length};
ghost use Rattle.models.specs.Checked.{parts_of};
ghost use Rattle.store.specs.Windows.{Sound};
ghost use Rattle.store.specs.declared.slot.Slot.TheVariants.{Free, Declared};
ghost use Rattle.set.specs.Keeping.{Found, Kept};

use models::model::Model;
use parts::part::{MOST_PARTS, Part};
use parts::refusal::Refusal;
use store::slot::Slot;
use store::slots::Slots;
use store::windows;

/// The model at a number, if there is one; 2: a number that is none. It needs no check.
pub(super) fn find<'s>(
    sheet: &'s [Part],
    slots: &Slots,
    number: u32,
) -> Result<Option<Model<'s>>, Refusal>
    requires { Sound sheet.now slots.now.at }
    ensures { Found sheet.now slots.now.at number result }
{
    let place = windows::place_of(sheet.len(), number)?;
    let Slot::Declared { length } = slots.get(place) else {
        return Ok(None);
    };
    let start = MOST_PARTS * place;
    let parts = &sheet[start..start + length];
    Ok(Some(Model { parts }))
}

/// Keeps the model at a number, in the place of what was kept there.
pub(super) fn keep(
    sheet: &mut [Part],
    slots: &mut Slots,
    number: u32,
    model: &Model<'_>,
) -> Result<(), Refusal>
    requires { Sound sheet.old slots.old.at }
    ensures kept { Kept sheet.old slots.old.at number (parts_of model.now) (Declared (length (parts_of model.now))) result sheet.new slots.new.at }
    ensures sound { Sound sheet.new slots.new.at }
{
    let place = windows::write_model(sheet, number, model)?;
    let length = model.parts().len();
    slots.put(place, Slot::Declared { length });
    Ok(())
}

/// Keeps no model at a number.
pub(super) fn clear(sheet: &mut [Part], slots: &mut Slots, number: u32) -> Result<(), Refusal>
    requires { Sound sheet.old slots.old.at }
    ensures kept { Kept sheet.old slots.old.at number [] Free result sheet.new slots.new.at }
    ensures sound { Sound sheet.new slots.new.at }
{
    let place = windows::clear(sheet, number)?;
    slots.put(place, Slot::Free);
    Ok(())
}
