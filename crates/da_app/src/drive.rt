// The command `drive`.

ghost use Rattle.std.specs.Prelude.{map, string_bytes};
ghost use Rattle.da_app.specs.Drive.{RunsDrive};

use crate::play::play_script;
use da_command::{Status, path_of_drive, read_settings};
use da_outside::{Files, Sink, Source};
use std::alloc::Global;

/// `drive PATH`: reads the settings from the file at PATH, plays the script of the input, and writes the reply to each
/// event before the next line is read. An event that is refused gets its line, and the play goes on; one that meets a
/// full history gets none and ends it.
pub fn run_drive<S: Source, K: Sink, F: Files>(
    alloc: Global,
    words: &[String],
    files: &mut F,
    input: &mut S,
    output: &mut K,
) -> Status
    ensures { RunsDrive (map string_bytes words.now)
        (record {
          files = F.state files.old;
          input = S.state input.old;
          output = K.state output.old;
        })
        (record {
          files = F.state files.new;
          input = S.state input.new;
          output = K.state output.new;
        })
        result }
{
    let Some(path) = path_of_drive(words) else {
        return Status::Usage;
    };
    match read_settings(alloc, path, files) {
        Ok(settings) => play_script(alloc, settings, input, output),
        Err(status) => status,
    }
}
