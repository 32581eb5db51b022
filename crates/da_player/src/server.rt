// What both servers do, and new ones.

use da_core::{Core, Goal, Input, Outputs, Refused, Settings};
use da_hist::Plain;
use std::alloc::{AllocError, Global};

/// What makes entries of inputs.
pub trait Server {
    /// Makes one entry of the input and gives out what comes of it, or says why there is none.
    fn step(&mut self, moment: u64, input: Input) -> Result<Outputs, Refused>;
}

impl Server for Plain {
    fn step(&mut self, moment: u64, input: Input) -> Result<Outputs, Refused> {
        Plain::step(self, moment, input)
    }
}

impl Server for Core {
    fn step(&mut self, moment: u64, input: Input) -> Result<Outputs, Refused> {
        Core::step(self, moment, input)
    }
}

fn settings_of(alloc: Global, text: &[u8]) -> Option<Settings> {
    match da_config::read(alloc, text) {
        Ok(settings) => Some(settings),
        Err(_) => None,
    }
}

/// A server with the settings of a text that has some.
pub(crate) fn plain_of(alloc: Global, settings: &[u8]) -> Result<Option<Plain>, AllocError> {
    match settings_of(alloc, settings) {
        Some(settings) => Ok(Some(Plain::new(alloc, settings, None)?)),
        None => Ok(None),
    }
}

/// Likewise.
pub(crate) fn core_of(
    alloc: Global,
    settings: &[u8],
    goal: Option<Goal>,
) -> Result<Option<Core>, AllocError> {
    match settings_of(alloc, settings) {
        Some(settings) => Ok(Some(Core::new(alloc, settings, goal)?)),
        None => Ok(None),
    }
}
