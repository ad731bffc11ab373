//! A call of a run over texts.

/// What a run over texts is asked.
#[derive(Clone, Copy)]
pub enum ReadCall<'t> {
    /// Begin this text. The one that is read, if there is one, is closed first; it need not
    /// have been read to its end.
    Begin(&'t [u8]),
    /// The next declaration of the text that is read.
    Next,
}
