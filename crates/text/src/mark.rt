//! The suffix of a name or a group.

ghost use Rattle.text.specs.Fronts.{Suffixed};

/// How often what stands before it is wanted.
#[derive(Clone, Copy)]
pub enum Mark {
    /// `?`
    Optional,
    /// `+`
    Repeated,
    /// `*`
    Any,
}

/// The suffix right at the front of a text, and what follows it.
pub fn suffix(text: &[u8]) -> (Option<Mark>, &[u8])
    ensures { Suffixed text.now result.0 result.1.now }
{
    match text {
        [b'?', rest @ ..] => (Some(Mark::Optional), rest),
        [b'+', rest @ ..] => (Some(Mark::Repeated), rest),
        [b'*', rest @ ..] => (Some(Mark::Any), rest),
        _ => (None, text),
    }
}
