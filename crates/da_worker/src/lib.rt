//! A worker: it answers the queries of an input, line by line, by passwd-files. `answer_all` carries the promise: which
//! lines it wrote for what it read, and what caused its end, for every status (`specs/Run.antt`); what a passwd-file
//! answers to a query is `row` (`specs/Passwd.antt`).
#![tactic(auto)]

mod answering;
mod laws;
mod passwd;
mod worker;

pub use laws::a_good_input_is_answered;
pub use passwd::row;
pub use worker::{WorkerStatus, answer_all};
