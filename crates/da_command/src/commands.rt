// The commands by name.

ghost use Rattle.std.specs.Prelude.{◌≡◌};
ghost use Rattle.da_command.specs.Commands.{command_name, command_named};

/// A command of the program.
#[derive(Clone, Copy, Debug, PartialEq, Eq)]
pub enum Command {
    /// Plays a script of events.
    Drive,
    /// Reads settings, and tells how many databases they have.
    Check,
    /// Answers queries by passwd-files.
    Worker,
    /// Makes the stored form of a password.
    Pw,
    /// Serves connections.
    Serve,
}

const COMMANDS: [Command; 5] = [
    Command::Drive,
    Command::Check,
    Command::Worker,
    Command::Pw,
    Command::Serve,
];

impl Command {
    fn name(self) -> &'static [u8]
        ensures { result.now ≡ command_name self }
    {
        match self {
            Command::Drive => b"drive",
            Command::Check => b"check",
            Command::Worker => b"worker",
            Command::Pw => b"pw",
            Command::Serve => b"serve",
        }
    }

    /// The command of a name. `None` exactly where there is none.
    pub fn named(name: &[u8]) -> Option<Command>
        ensures { result ≡ command_named name.now }
    {
        COMMANDS
            .iter()
            .copied()
            .find(|command| name == command.name())
    }
}
