//! What stands between the members of a list.

/// How the members of a list are joined, from the left.
#[derive(Clone, Copy, PartialEq, Eq)]
pub enum Join {
    Choice,
    Sequence,
    Interleave,
}
