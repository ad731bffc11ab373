//! One of the two texts.

use listing::listed::Listed;

/// A text, the path of the file that it is from, and what it declares.
#[derive(Clone, Copy)]
pub struct Side<'a, 't> {
    pub path: &'a str,
    pub text: &'a [u8],
    pub elements: &'a [Listed<'t>],
}
