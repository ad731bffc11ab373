//! A declaration that was read.

/// How many parts its model has, the first ones of the sheet; the symbol of its element;
/// and the element's name, as a part of the text.
#[derive(Clone, Copy)]
pub struct Declared<'t> {
    /// 1 to 256
    pub length: usize,
    pub symbol: u32,
    pub name: &'t [u8],
    /// where the name stands in the text, in bytes from 0
    pub place: usize,
}
