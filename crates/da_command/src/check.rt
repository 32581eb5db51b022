// The command `check`.

ghost use Rattle.std.specs.Prelude.{◌≡◌, map, string_bytes, Some, IfOk};
ghost use Rattle.da_command.specs.Check.{counts_line, RunsCheck, Tells};

use crate::settings_file::read_settings;
use crate::status::Status;
use crate::words::path_of_check;
use da_outside::{Files, Sink};
use da_settings::Settings;
use da_stream::write_all;
use std::alloc::{AllocError, Global};

/// `check PATH`: reads the settings from the file at PATH, and writes how many password databases and user databases
/// they have.
pub fn run_check<K: Sink, F: Files>(
    alloc: Global,
    words: &[String],
    files: &mut F,
    output: &mut K,
) -> Status
    ensures { RunsCheck (map string_bytes words.now)
        (record { files = F.state files.old; output = K.state output.old })
        (record { files = F.state files.new; output = K.state output.new })
        result }
{
    let Some(path) = path_of_check(words) else {
        return Status::Usage;
    };
    match read_settings(alloc, path, files) {
        Ok(settings) => tell(alloc, &settings, output),
        Err(status) => status,
    }
}

fn counts(alloc: Global, settings: &Settings) -> Result<Vec<u8>, AllocError>
    ensures { IfOk result (λ text. text.items ≡ counts_line settings.now) }
{
    let mut text = Vec::from_slice(alloc, b"ok ")?;
    text.extend_from_slice(settings.passdb.all().len().to_string(alloc)?.as_bytes())?;
    text.extend_from_slice(b" ")?;
    text.extend_from_slice(settings.userdb.all().len().to_string(alloc)?.as_bytes())?;
    text.extend_from_slice(b"\n")?;
    Ok(text)
}

fn tell<K: Sink>(alloc: Global, settings: &Settings, output: &mut K) -> Status
    ensures { Tells settings.now (K.state output.old) (K.state output.new) result }
{
    let Ok(text) = counts(alloc, settings) else {
        return Status::NoMemory;
    };
    match write_all(output, &text) {
        Ok(()) => Status::Done,
        Err(_) => Status::WriteFault,
    }
}
