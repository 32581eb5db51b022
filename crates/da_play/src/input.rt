// Inputs and entries.

ghost use Rattle.std.specs.Prelude.{◌≡◌, IfOk};

use da_fields::{Answer, Text};
use da_msgs::ConnKind;
use da_tables::Numbers;
use std::alloc::{AllocError, Global};

/// What may happen to the server.
#[derive(Drop)]
pub enum Input {
    /// A connection is opened; its random bytes become its cookie.
    Opened {
        kind: ConnKind,
        random: [u8; 16],
    },
    /// A connection sent a line, which stands here without its LF.
    Line {
        conn: u32,
        text: Text,
        random: [u8; 16],
    },
    /// A connection sent a line that is too long.
    Broken {
        conn: u32,
    },
    /// A connection ended.
    Gone {
        conn: u32,
    },
    /// A worker takes the first query that waits.
    Take,
    /// A query that was taken is answered.
    Answered {
        query: u32,
        answer: Answer,
    },
    /// A query that was taken is answered too late.
    Late {
        query: u32,
    },
    /// Time passes.
    Tick,
}

impl Input {
    /// An equal input.
    pub fn copy(&self, alloc: Global) -> Result<Input, AllocError>
        ensures { IfOk result (λ input. input ≡ self.now) }
    {
        Ok(match self {
            Input::Opened { kind, random } => Input::Opened {
                kind: *kind,
                random: *random,
            },
            Input::Line { conn, text, random } => Input::Line {
                conn: *conn,
                text: text.copy(alloc)?,
                random: *random,
            },
            Input::Broken { conn } => Input::Broken { conn: *conn },
            Input::Gone { conn } => Input::Gone { conn: *conn },
            Input::Take => Input::Take,
            Input::Answered { query, answer } => Input::Answered {
                query: *query,
                answer: answer.copy(alloc)?,
            },
            Input::Late { query } => Input::Late { query: *query },
            Input::Tick => Input::Tick,
        })
    }
}

/// One entry of the history.
#[derive(Drop)]
pub struct Entry {
    /// When it happened, in milliseconds.
    pub moment: u64,
    pub input: Input,
    /// The numbers of the queries whose answers were used again.
    pub hits: Numbers,
}
