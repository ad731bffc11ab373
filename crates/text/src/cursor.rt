//! A place in a text.

ghost use Rattle.std.specs.Prelude.{◌≤◌, length};

mod bytes;
mod reading;

/// The text, and how many bytes of it have been read.
#[derive(Drop)]
pub struct Cursor<'t> {
    pub text: &'t [u8],
    pub at: usize,
    pub ghost inside: { at ≤ length text.now },
}
