//! Streams: reads of a source into a cutter of lines (`read_into`) and to its end (`read_up_to`), writes of a whole text to
//! a sink (`write_all`), and the run over an input line by line (`run_lines`), in which a handler takes each line before
//! the next bytes are read. The run's contract says what was read, which lines the handler took, and what caused the end,
//! for every end (`specs/LineRuns.antt`).
#![tactic(auto)]

mod fill;
mod gather;
mod handler;
mod lines;
mod output;

pub use fill::{Fill, read_into};
pub use gather::{Gathered, read_up_to};
pub use handler::LineHandler;
pub use lines::{LinesEnd, run_lines};
pub use output::write_all;
