//! The command `pw`: it reads a password, and writes the line that stores it. `run_pw` carries the promise: what it read
//! and wrote, and what caused its end, for every status (`specs/Pw.antt`).
#![tactic(auto)]

mod pw;

pub use pw::run_pw;
