// The history of a server as a script.

use da_core::{Core, Entry};
use da_script::print_event;
use std::alloc::{AllocError, Global};

// The line of an entry, with its LF.
fn line_of(alloc: Global, entry: &Entry) -> Result<Vec<u8>, AllocError> {
    let mut line = print_event(alloc, entry.moment, &entry.input)?;
    line.push(b'\n')?;
    Ok(line)
}

/// The script of a history, each event at its entry's own moment.
pub fn script_of(alloc: Global, core: &Core) -> Result<Vec<u8>, AllocError> {
    let mut script = Vec::new(alloc);
    for entry in core.entries() {
        script.extend_from_slice(&line_of(alloc, entry)?)?;
    }
    Ok(script)
}
