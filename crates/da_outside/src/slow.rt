// Streams in memory that pass a few bytes at a time. They tell no contents.

ghost use Rattle.std.specs.Prelude.{None, ◌<◌, ◌≤◌};

use crate::faults::Failed;
use crate::sink::{MemSink, Sink};
use crate::source::{MemSource, Source};

// How many bytes pass, where at most so many may and so many fit.
fn room(most: usize, fits: usize) -> usize
    ensures bound { result ≤ fits }
    ensures some { 0 < fits → 0 < result }
{
    if most == 0 || most > fits { fits } else { most }
}

/// A source that gives at most so many bytes a read; with 0, as many as fit.
#[derive(Drop)]
pub struct SlowSource {
    pub inner: MemSource,
    pub most: usize,
}

impl Source for SlowSource {
    ghost state = { λ source. record { left = None; faults = source.inner.calls.faults } };

    fn read(&mut self, buf: &mut [u8]) -> Result<usize, Failed> {
        let most = room(self.most, buf.len());
        match self.inner.read(&mut buf[..most]) {
            Ok(count) => Ok(count),
            Err(fault) => Err(fault),
        }
    }
}

/// A sink that takes at most so many bytes a write; with 0, all of them.
#[derive(Drop)]
pub struct SlowSink {
    pub inner: MemSink,
    pub most: usize,
}

impl Sink for SlowSink {
    ghost state = { λ sink. record { contents = None; faults = sink.inner.calls.faults } };

    fn write(&mut self, piece: &[u8]) -> Result<usize, Failed> {
        let most = room(self.most, piece.len());
        match self.inner.write(&piece[..most]) {
            Ok(count) => Ok(count),
            Err(fault) => Err(fault),
        }
    }
}
