//! The element that a declaration declares.

/// Its name, as a part of the text, and the symbol of the name.
#[derive(Clone, Copy)]
pub struct Element<'t> {
    pub name: &'t [u8],
    pub symbol: u32,
    /// where the name stands in the text, in bytes from 0
    pub place: usize,
}
