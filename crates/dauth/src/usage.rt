// The usage text. No words are parsed by it.

use clap::Command;
use std::alloc::{AllocError, Global};

/// Each command, and what its values are for, in a line of at most 80 columns.
const COMMANDS: [(&str, &str); 5] = [
    (
        "drive",
        "PATH: play a script of events, and write each reply",
    ),
    (
        "check",
        "PATH: read a settings file, and count its databases",
    ),
    ("worker", "PATH: answer queries by passwd-files"),
    ("pw", "SCHEME: make the stored form of a password"),
    (
        "serve",
        "PATH, or PATH N M: serve, until N clients and M masters have gone",
    ),
];

/// The usage text, which names each command.
pub fn usage_text(alloc: Global) -> Result<String, AllocError> {
    let mut program = Command::new(alloc, "dauth")
        .subcommand_required(true)
        .disable_help_flag(true)
        .disable_help_subcommand(true);
    for (name, about) in COMMANDS {
        let command = Command::new(alloc, name).about(about);
        program = program.subcommand(command)?;
    }
    program.render_help()
}
