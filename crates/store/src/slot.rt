//! What is kept at one number.

/// Whether a model is declared at a number, and how many parts it has.
#[derive(Clone, Copy)]
pub enum Slot {
    Free,
    Declared { length: usize },
}
