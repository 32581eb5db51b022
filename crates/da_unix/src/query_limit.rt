// How long a query may take, which the settings say.

use crate::adapters::Disk;
use da_outside::{Files, GetFault};
use std::alloc::Global;
use std::rt;
use std::sync::atomic::{AtomicU64, Ordering};

/// What settings say that don't name it, in milliseconds.
const DEFAULT: u64 = 60_000;

/// How long a query may take.
#[derive(Drop)]
pub struct QueryLimit {
    millis: AtomicU64,
}

impl QueryLimit {
    /// As settings have it that don't name it.
    pub fn new() -> Self {
        QueryLimit {
            millis: AtomicU64::new(DEFAULT),
        }
    }

    /// The milliseconds that it may take.
    pub fn millis(&self) -> u64 {
        self.millis.load(Ordering::SeqCst)
    }

    // Takes it over from the text of settings. Another text, and want of memory, change nothing.
    fn take_over(&self, alloc: Global, text: &[u8]) {
        if let Ok(settings) = da_config::read(alloc, text) {
            self.millis.store(settings.query_limit, Ordering::SeqCst);
        }
    }
}

/// Files that one reads the settings from. It takes the limit over from these.
#[derive(Drop)]
pub struct SettingsFiles<'a, F> {
    files: F,
    limit: &'a QueryLimit,
}

impl<'a, F: Files> SettingsFiles<'a, F> {
    /// These files.
    pub fn new(files: F, limit: &'a QueryLimit) -> Self {
        SettingsFiles { files, limit }
    }
}

impl<'a, R: rt::Files> SettingsFiles<'a, Disk<'a, R>> {
    /// The files of the system, of which the one at `path` is that of the settings.
    pub fn of_disk(rt: &'a R, path: &'a [u8], limit: &'a QueryLimit) -> Self {
        SettingsFiles {
            files: Disk::new(rt, path),
            limit,
        }
    }
}

impl<'a, F: Files> Files for SettingsFiles<'a, F> {
    ghost state = { λ settings. F.state settings.files };

    fn read(&mut self, alloc: Global, path: &[u8], max: usize) -> Result<Vec<u8>, GetFault> {
        let answer = self.files.read(alloc, path, max);
        if let Ok(text) = &answer {
            self.limit.take_over(alloc, text);
        }
        answer
    }
}
