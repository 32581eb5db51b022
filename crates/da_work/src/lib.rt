//! The command `worker`: it answers queries by the passwd-files of the settings' databases. `run_worker` carries the
//! promise: what it read, answered and wrote, and what caused its end, for every status (`specs/Work.antt`).
#![tactic(auto)]

mod work;

pub use work::run_worker;
