//! A worker of the service: it takes one query after another, asks its worker process or a program, and records the answer.
//! Each answer that it records is the one that the link's line spells, the program's end means, or tells that it died or
//! was malformed; and each query that it takes is answered before the next one is taken, unless the history is full, the
//! query runs no more, or memory was wanted (`Works` of `specs/Working.antt`).
#![tactic(auto)]

mod asking;
mod exchange;
mod link;
mod next;
mod program;
mod worker;

pub use da_port::LoopEnd;
pub use worker::serve_worker;
