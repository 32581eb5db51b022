//! Sessions of a running service over a port: `read_conn` records the lines of a connection, `write_conn` writes the lines
//! to it, and `serve_ticks` lets time pass. Each steps with one seat and makes entries through no other. What each did,
//! and why it ended, stands in its contract for every end: `specs/Reading.antt`, `specs/Writing.antt` and
//! `specs/Ticking.antt`. Each may wait; its contract holds if it returns.
#![tactic(auto)]

mod ends;
mod lines;
mod reader;
mod steps;
mod ticks;
mod writer;

pub use ends::{ReadEnd, WriteEnd};
pub use reader::read_conn;
pub use ticks::serve_ticks;
pub use writer::write_conn;
