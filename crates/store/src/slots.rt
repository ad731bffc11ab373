//! The table of the 32 slots.

ghost use Rattle.std.specs.Prelude.{◌≡◌, length, replicate, slice_set};
ghost use Rattle.store.specs.Windows.{slot_at};
ghost use Rattle.store.specs.declared.slot.Slot.TheVariants.{Free};

use crate::slot::Slot;

/// How many models are kept at most.
pub const MODELS: usize = 32;

/// One slot for each number, that of number 1 first.
#[derive(Drop)]
pub struct Slots {
    at: [Slot; MODELS],
    pub ghost full: { length at ≡ 32 },
}

impl Slots {
    /// No number has a model.
    pub fn free() -> Slots
        ensures { result.at ≡ replicate 32 Free }
    {
        Slots {
            at: [Slot::Free; MODELS],
        }
    }

    /// The slot at a place; past the last one all are free.
    pub fn get(&self, place: usize) -> Slot
        ensures { result ≡ slot_at place self.now.at }
    {
        if place < MODELS {
            self.at[place]
        } else {
            Slot::Free
        }
    }

    /// Changes the slot at a place, if there is one.
    pub fn put(&mut self, place: usize, slot: Slot)
        ensures { self.new.at ≡ slice_set self.old.at place slot }
    {
        if place < MODELS {
            self.at[place] = slot;
        }
    }
}
