//! What a run over texts answers.

use parts::part::Part;
use text::fault::TextFault;

/// The answer to a call.
#[derive(Drop)]
pub enum ReadAnswer<'t> {
    /// To begin.
    Begun,
    /// To next: no text was begun yet, so there is none to be read.
    NoText,
    /// To next: the parts of the model of the next declaration, the symbol of its element, and
    /// the element's name as it stands in the text.
    Declares {
        parts: Vec<Part>,
        symbol: u32,
        name: &'t [u8],
    },
    /// To next: the text has no more.
    NoneLeft,
    /// To next: why the text cannot be read on. The same is answered until a text is begun.
    Fault(TextFault),
}
