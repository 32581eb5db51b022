//! The commands of the program, over anything that they may read from and write to. `run_drive` plays a script of events
//! and writes the server's replies; its contract says what it read, what it wrote and what caused its end, for every
//! status (`specs/Drive.antt`). The other commands stand in crates of their own, and are handed on: `run_check` reads
//! settings and writes how many databases they have (da_command), `run_worker` answers queries by the settings'
//! passwd-files (da_work), `run_pw` makes the stored form of a password (da_pw), and `run_serve` serves connections
//! (da_serve), whose history `finish_serve` prints at the end (da_finish).
#![tactic(auto)]

mod drive;
mod play;

pub use da_command::{Command, Status, command, run_check};
pub use da_config::{Fault, FaultKind};
pub use da_finish::finish_serve;
pub use da_pw::run_pw;
pub use da_serve::run_serve;
pub use da_work::run_worker;
pub use drive::run_drive;
