ghost use Rattle.std.specs.Prelude.{◌≡◌, ◌<◌, [], None, Some, Ok, IfOk, IsTrue, IsErr, is_err, length};
ghost use Rattle.std.specs.Io.{WritesAtMost};
ghost use Rattle.std.specs.Io.KnownBytes.{WriteAppends};
ghost use Rattle.da_outside.specs.Calls.{called, fails_next, no_calls};
ghost use Rattle.da_outside.specs.Causes.{HasCause};
ghost use Rattle.da_outside.specs.Sink.{SinkState, mem_sink};

use crate::Failed;
use crate::calls::Calls;
use std::alloc::Global;
use std::marker::Model;

/// A place that bytes go to, as a connection or standard output.
pub trait Sink {
    /// What it tells: the bytes that it took, in order, and how often it failed.
    ghost state: { Self → SinkState };

    /// Takes bytes from the front of `piece`, at least one where there is one, and answers how many it took.
    /// A call that fails takes nothing.
    fn write(&mut self, piece: &[u8]) -> Result<usize, Failed>
        ensures bound { WritesAtMost result piece.now }
        ensures some { IfOk result (λ n. 0 < length piece.now → 0 < n) }
        ensures bytes { WriteAppends (state self.old).contents (state self.new).contents result piece.now }
        ensures cause { HasCause (state self.old).faults (state self.new).faults result };
}

/// A sink that keeps what it takes, and some calls of which fail.
#[derive(Debug, Drop)]
pub struct MemSink {
    bytes: Vec<u8>,
    calls: Calls,
}

impl Model for MemSink {
    ghost use Rattle.da_outside.specs.Sink.{MemSinkState};

    ghost Value = { MemSinkState };

    ghost view = { λ sink. record { bytes = sink.bytes.items; calls = sink.calls } };
}

impl MemSink {
    /// An empty sink. `fail` holds the numbers of the calls that fail, counted from 1.
    pub fn new(alloc: Global, fail: Vec<u64>) -> MemSink
        ensures { result ≡ record { bytes = []; calls = no_calls fail.items } }
    {
        MemSink {
            bytes: Vec::new(alloc),
            calls: Calls::new(fail),
        }
    }

    /// The bytes that it took.
    pub fn bytes(&self) -> &[u8]
        ensures { result.now ≡ self.now.bytes }
    {
        &self.bytes
    }
}

impl Sink for MemSink {
    ghost state = { mem_sink };

    /// It takes the whole piece. It fails where `fail` holds the call's number, and where memory is wanted.
    fn write(&mut self, piece: &[u8]) -> Result<usize, Failed>
        ensures bound { WritesAtMost result piece.now }
        ensures some { IfOk result (λ n. 0 < length piece.now → 0 < n) }
        ensures bytes { WriteAppends (Some self.old.bytes) (Some self.new.bytes) result piece.now }
        ensures cause { HasCause self.old.calls.faults self.new.calls.faults result }
        ensures fails { IsTrue (fails_next self.old.calls) → IsErr result }
        ensures whole { IfOk result (λ n. n ≡ length piece.now) }
        ensures calls { self.new.calls ≡ called self.old.calls (is_err result) }
    {
        if self.calls.fails_next() || self.bytes.extend_from_slice(piece).is_err() {
            self.calls.count(true);
            return Err(Failed);
        }
        self.calls.count(false);
        Ok(piece.len())
    }
}

/// A sink that never fails, and keeps nothing.
#[derive(Debug, Default, Drop)]
pub struct SoundSink {}

impl SoundSink {
    pub fn new() -> SoundSink {
        SoundSink {}
    }
}

impl Sink for SoundSink {
    ghost state = { λ _. record { contents = None; faults = 0 } };

    /// It takes the whole piece.
    fn write(&mut self, piece: &[u8]) -> Result<usize, Failed>
        ensures { result ≡ Ok (length piece.now) }
    {
        Ok(piece.len())
    }
}
