// Why a session ended.

/// Why the reader of a connection ended.
#[derive(Clone, Copy, Debug, Drop, PartialEq, Eq)]
pub enum ReadEnd {
    /// The connection isn't open: its last line or a line that was too long closed it, or something else did.
    Closed,
    /// The source ended, and that was recorded.
    Ended,
    /// The source failed, and the end of the connection was recorded.
    Cut,
    /// Memory was wanted, and the end of the connection was recorded.
    NoMemory,
    /// The history is full.
    Full,
}

/// Why the writer of a connection ended.
#[derive(Clone, Copy, Debug, Drop, PartialEq, Eq)]
pub enum WriteEnd {
    /// Nothing more comes for the connection, and all its bytes were written.
    Ended,
    /// The sink failed.
    Cut,
}
