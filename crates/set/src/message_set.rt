//! The message set: up to 32 models over the caller's sheet. It is drawn up, when models are
//! declared and withdrawn, or issued, when they are compared and messages judged; these are
//! two types, and to issue or to recall a set moves it from the one to the other.

ghost use Rattle.store.specs.Windows.{Sound};

use parts::part::Part;
use store::slots::Slots;

pub mod check_sheet;
mod comparing;
mod declaring;
mod keeping;
mod questions;

/// A set to which models are being added, or from which they are taken.
#[derive(Drop)]
pub struct DrawnUp<'a> {
    sheet: &'a mut [Part],
    slots: Slots,
    /// What a slot tells of is a checked model.
    ghost sound: { Sound sheet.now slots.at },
}

/// A set whose models are in use.
#[derive(Drop)]
pub struct Issued<'a> {
    sheet: &'a mut [Part],
    slots: Slots,
    /// What a slot tells of is a checked model.
    ghost sound: { Sound sheet.now slots.at },
}
