// A server that makes a step once more where it wanted memory.

use crate::script::replies_of;
use crate::server::{Server, core_of};
use da_core::{Core, Input, Outputs, Refused};
use std::alloc::{AllocError, Global};

#[derive(Drop)]
struct Repeating {
    alloc: Global,
    core: Core,
}

// A copy, which is made once more where the first one wanted memory.
fn copied(alloc: Global, input: &Input) -> Result<Input, AllocError> {
    match input.copy(alloc) {
        Ok(same) => Ok(same),
        Err(_) => input.copy(alloc),
    }
}

impl Server for Repeating {
    fn step(&mut self, moment: u64, input: Input) -> Result<Outputs, Refused> {
        let Ok(same) = copied(self.alloc, &input) else {
            return Err(Refused::NoMemory);
        };
        match self.core.step(moment, input) {
            Err(Refused::NoMemory) => self.core.step(moment, same),
            reply => reply,
        }
    }
}

/// What a new `Core` gives out for the events of a script, where each step that wants memory is made once more. `None`
/// where the text of the settings has a fault.
pub fn replies_of_core_again(
    alloc: Global,
    settings: &[u8],
    script: &[u8],
) -> Result<Option<Vec<u8>>, AllocError> {
    let mut server = repeating_server(alloc, core_of(alloc, settings, None)?);
    replies_of(alloc, &mut server, script)
}

fn repeating_server(alloc: Global, core: Option<Core>) -> Option<Repeating> {
    match core {
        Some(core) => Some(Repeating { alloc, core }),
        None => None,
    }
}
