//! The two states of a message set, to be told.

/// Which of its calls a set takes.
#[derive(Clone, Copy, PartialEq, Eq)]
pub enum State {
    /// It takes declare, withdraw and issue.
    DrawnUp,
    /// It takes compare, judge and recall.
    Issued,
}
