//! The end of the service: `finish_serve` closes its port and prints the history. What was written, and what caused the end,
//! stands in its contract for every status (`specs/Printed.antt`).
#![tactic(auto)]

mod finish;

pub use finish::finish_serve;
