//! What the commands share: their names (`command`), the words of a command line, the statuses, and the settings file
//! (`read_settings`, whose contract says which file was read, and what of it gave the settings or the status). The
//! command `check` stands here too: it reads settings and writes how many databases they have (`specs/Check.antt`).
#![tactic(auto)]

mod check;
mod commands;
mod serve_words;
mod settings_file;
mod status;
mod words;

pub use check::run_check;
pub use commands::Command;
pub use serve_words::task_of_serve;
pub use settings_file::read_settings;
pub use status::Status;
pub use words::{command, path_of_drive, path_of_worker};
