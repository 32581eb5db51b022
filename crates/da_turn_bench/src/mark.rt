//! Marks.

/// A thread's n-th mark.
#[derive(Clone, Copy, Debug, PartialEq, Eq)]
pub struct Mark {
    pub thread: u64,
    pub number: u64,
}
