// What the server gives out for an entry, and refusals.

ghost use Rattle.std.specs.Prelude.{◌≡◌, ◌++◌, ◌∷◌, []};

use da_fields::{Query, Text};
use da_tables::Numbers;
use std::marker::Model;

/// Lines to connections: the number of the connection, and the line without its LF.
#[derive(Drop)]
pub struct Sent {
    items: Vec<(u32, Text)>,
}

impl Model for Sent {
    ghost use Rattle.std.specs.Prelude.{List, ℕ};

    ghost Value = { List (ℕ × List ℕ) };

    ghost view = { λ s. s.items.items };
}

/// What an entry makes the server send, hand out and close.
#[derive(Drop)]
pub struct Outputs {
    /// The number of the entry, counted from 1.
    pub entry: u64,
    /// The connection that was opened.
    pub conn: Option<u32>,
    /// The query that is handed out.
    pub query: Option<Query>,
    /// The numbers of the queries whose answers were used again.
    pub hits: Numbers,
    /// The replies that were due before the input had its effect.
    pub due_lines: Sent,
    /// The further lines.
    pub lines: Sent,
    /// The connection that the server closes.
    pub closed: Option<u32>,
}

/// Why an input makes no entry.
#[derive(Clone, Copy, Debug, Drop, PartialEq, Eq)]
pub enum Refused {
    /// The history has as many entries or bytes as it may have.
    HistoryFull,
    /// As many connections are open as may be.
    ConnLimit { count: u32 },
    /// No such connection is open.
    NoConn { conn: u32 },
    /// No query waits.
    NothingWaits,
    /// No such query was taken and is unanswered.
    NotTaken { query: u32 },
    /// The query isn't late before the moment `due`.
    NotLate { query: u32, due: u64 },
    /// Memory was wanted.
    NoMemory,
}

impl Sent {
    /// The list of these lines. It takes no memory.
    pub fn new(items: Vec<(u32, Text)>) -> Sent
        ensures { result ≡ items.items }
    {
        Sent { items }
    }

    /// All lines, in order.
    pub fn all(&self) -> &[(u32, Text)]
        ensures { result.now ≡ self.now }
    {
        &self.items
    }
}
