// The words of a command line.

ghost use Rattle.std.specs.Prelude.{◌≡◌, map, option_copied, string_bytes};
ghost use Rattle.da_command.specs.Commands.{command_of};
ghost use Rattle.da_command.specs.Words.{is_value, path_of, command_path, drive_path, check_path, worker_path};

use crate::commands::Command;

/// The command that the first word names. `None` exactly where there is none of that name.
pub fn command(words: &[String]) -> Option<Command>
    ensures { result ≡ command_of (map string_bytes words.now) }
{
    match words {
        [] => None,
        [name, ..] => Command::named(name.as_bytes()),
    }
}

fn may_be_value(word: &[u8]) -> bool
    ensures { result ≡ is_value word.now }
{
    match word {
        [] => false,
        [first, ..] => *first != b'-',
    }
}

/// The path of `drive PATH`. `None` exactly where the words are off this form.
pub fn path_of_drive(words: &[String]) -> Option<&[u8]>
    ensures { option_copied result ≡ drive_path (map string_bytes words.now) }
{
    path_of_command(b"drive", words)
}

/// The path of `check PATH`. `None` exactly where the words are off this form.
pub fn path_of_check(words: &[String]) -> Option<&[u8]>
    ensures { option_copied result ≡ check_path (map string_bytes words.now) }
{
    path_of_command(b"check", words)
}

/// The path of `worker PATH`. `None` exactly where the words are off this form.
pub fn path_of_worker(words: &[String]) -> Option<&[u8]>
    ensures { option_copied result ≡ worker_path (map string_bytes words.now) }
{
    path_of_command(b"worker", words)
}

fn path_of_command<'a>(name: &[u8], words: &'a [String]) -> Option<&'a [u8]>
    ensures { option_copied result ≡ command_path name.now (map string_bytes words.now) }
{
    match words {
        [command, path] => path_after(name, command.as_bytes(), path.as_bytes()),
        _ => None,
    }
}

/// The path, where the command is that of the name. A path isn't empty, and doesn't begin with `-`.
pub(crate) fn path_after<'a>(name: &[u8], command: &[u8], path: &'a [u8]) -> Option<&'a [u8]>
    ensures { option_copied result ≡ path_of name.now command.now path.now }
{
    if command == name && may_be_value(path) {
        Some(path)
    } else {
        None
    }
}
