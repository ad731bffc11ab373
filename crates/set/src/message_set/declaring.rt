//! The calls of a set that is drawn up.

ghost use Rattle.std.specs.Prelude.{◌≡◌, ◌≢◌, [], length, replicate};
ghost use Rattle.parts.specs.Parts.{blank as blank_part};
ghost use Rattle.store.specs.Windows.{model_at};
ghost use Rattle.store.specs.declared.slot.Slot.TheVariants.{Free, Declared};
ghost use Rattle.set.specs.Histories.{granted_told};
ghost use Rattle.set.specs.Histories.Asked.{declare as declaring, withdraw as withdrawing, issue as issuing};
ghost use Rattle.set.specs.declared.state.State.TheVariants.{DrawnUp as drawn_up, Issued as issued};
ghost use Rattle.set.specs.Histories.Told.{granted};
ghost use Rattle.set.specs.Keeping.{Found};
ghost use Rattle.set.specs.Law.{Only, DeclareEnds, WithdrawEnds};
ghost use Rattle.set.specs.Leading.{Leads, Leaves, Steps};

use super::keeping::{clear, find, keep};
use super::{DrawnUp, Issued};
use models::model::Model;
use models::model::check::check;
use parts::part::Part;
use parts::refusal::Refusal;
use store::slots::Slots;
use store::windows;

impl<'a> DrawnUp<'a> {
    /// A blank set: no model is declared. Never refuses; over a sheet that has not 8,192
    /// parts the set has no numbers, and the sheet stays as it is.
    pub fn blank(sheet: &'a mut [Part]) -> DrawnUp<'a>
        ensures filled { length sheet.old ≡ 8192 → result.sheet.now ≡ replicate 8192 blank_part }
        ensures unaltered { length sheet.old ≢ 8192 → result.sheet.now ≡ sheet.old }
        ensures free { result.slots.at ≡ replicate 32 Free }
        ensures lender { result.sheet.ghost_name ≡ sheet.entry.ghost_name }
        ensures law { Leads sheet.old [] drawn_up result.sheet.now result.slots.at }
    {
        windows::clear_all(sheet);
        DrawnUp {
            sheet,
            slots: Slots::free(),
        }
    }

    fn find(&self, number: u32) -> Result<Option<Model<'_>>, Refusal>
        ensures { Found self.now.sheet.now self.now.slots.at number result }
    {
        find(self.sheet, &self.slots, number)
    }

    /// Declares the model of the parts at a free number.
    pub fn declare(&mut self, number: u32, parts: &[Part]) -> Result<(), Refusal>
        ensures answer { Only (DeclareEnds (length self.old.sheet.now) (model_at self.old.sheet.now self.old.slots.at number) number parts.now) (granted_told result) }
        ensures leaves { Leaves number parts.now (Declared (length parts.now)) result self.old.sheet.now self.old.slots.at self.new.sheet.now self.new.slots.at }
        ensures lender { self.new.sheet.ghost_name ≡ self.old.sheet.ghost_name }
        ensures law { Steps [] (declaring number parts.now) (granted_told result) drawn_up self.old.sheet.now self.old.slots.at drawn_up self.new.sheet.now self.new.slots.at }
    {
        if self.find(number)?.is_some() {
            return Err(Refusal::AlreadyDeclared { number });
        }
        let model = check(parts)?;
        let DrawnUp { sheet, slots } = self;
        keep(sheet, slots, number, &model)
    }

    /// Takes the model at a number out of the set.
    pub fn withdraw(&mut self, number: u32) -> Result<(), Refusal>
        ensures answer { Only (WithdrawEnds (length self.old.sheet.now) (model_at self.old.sheet.now self.old.slots.at number) number) (granted_told result) }
        ensures leaves { Leaves number [] Free result self.old.sheet.now self.old.slots.at self.new.sheet.now self.new.slots.at }
        ensures lender { self.new.sheet.ghost_name ≡ self.old.sheet.ghost_name }
        ensures law { Steps [] (withdrawing number) (granted_told result) drawn_up self.old.sheet.now self.old.slots.at drawn_up self.new.sheet.now self.new.slots.at }
    {
        if self.find(number)?.is_none() {
            return Err(Refusal::NotDeclared { number });
        }
        let DrawnUp { sheet, slots } = self;
        clear(sheet, slots, number)
    }

    /// The set, issued.
    pub fn issue(self) -> Issued<'a>
        ensures same { (result.sheet.now ≡ self.entry.sheet.now) × (result.slots.at ≡ self.entry.slots.at) }
        ensures lender { result.sheet.ghost_name ≡ self.entry.sheet.ghost_name }
        ensures law { Steps [] issuing granted drawn_up self.entry.sheet.now self.entry.slots.at issued result.sheet.now result.slots.at }
    {
        let DrawnUp { sheet, slots } = self;
        Issued { sheet, slots }
    }
}
