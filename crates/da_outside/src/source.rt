ghost use Rattle.std.specs.Prelude.{◌≡◌, Some, is_err, length, min, Ok, IfOk};
ghost use Rattle.std.specs.Io.{ReadsAtMost};
ghost use Rattle.std.specs.Io.KnownBytes.{ReadConsumes};
ghost use Rattle.da_outside.specs.Calls.{called, fails_next, no_calls};
ghost use Rattle.da_outside.specs.Causes.{HasCause};
ghost use Rattle.da_outside.specs.Source.{SourceState, mem_source};

use crate::Failed;
use crate::calls::Calls;
use crate::rest::Rest;
use std::marker::Model;

/// Bytes that come in, as those of a connection or of standard input.
pub trait Source {
    /// What it tells: the bytes that it has left, and how often it failed.
    ghost state: { Self → SourceState };

    /// Reads the next bytes into the front of `buf`, and answers how many these are. For a buffer that isn't empty,
    /// 0 is the end. A call that fails reads nothing.
    fn read(&mut self, buf: &mut [u8]) -> Result<usize, Failed>
        ensures bound { ReadsAtMost result buf.new }
        ensures bytes { ReadConsumes (state self.old).left (state self.new).left result buf.new }
        ensures cause { HasCause (state self.old).faults (state self.new).faults result };
}

/// A source of these bytes, some calls of which fail.
#[derive(Debug, Drop)]
pub struct MemSource {
    rest: Rest,
    calls: Calls,
}

impl Model for MemSource {
    ghost use Rattle.da_outside.specs.Source.{MemSourceState};

    ghost Value = { MemSourceState };

    ghost view = { λ source. record { bytes = source.rest; calls = source.calls } };
}

impl MemSource {
    /// A source of these bytes. `fail` holds the numbers of the calls that fail, counted from 1.
    pub fn new(bytes: Vec<u8>, fail: Vec<u64>) -> MemSource
        ensures { result ≡ record { bytes = bytes.items; calls = no_calls fail.items } }
    {
        MemSource {
            rest: Rest::new(bytes),
            calls: Calls::new(fail),
        }
    }
}

impl Source for MemSource {
    ghost state = { mem_source };

    /// It reads as many bytes as fit, and fails exactly where `fail` holds the call's number.
    fn read(&mut self, buf: &mut [u8]) -> Result<usize, Failed>
        ensures bound { ReadsAtMost result buf.new }
        ensures bytes { ReadConsumes (Some self.old.bytes) (Some self.new.bytes) result buf.new }
        ensures cause { HasCause self.old.calls.faults self.new.calls.faults result }
        ensures fails { is_err result ≡ fails_next self.old.calls }
        ensures count { IfOk result (λ count. count ≡ min (length buf.old) (length self.old.bytes)) }
        ensures calls { self.new.calls ≡ called self.old.calls (is_err result) }
    {
        if self.calls.fails_next() {
            self.calls.count(true);
            return Err(Failed);
        }
        self.calls.count(false);
        Ok(self.rest.read(buf))
    }
}

/// A source of these bytes that never fails.
#[derive(Debug, Drop)]
pub struct SoundSource {
    rest: Rest,
}

impl Model for SoundSource {
    ghost use Rattle.std.specs.Prelude.{List, ℕ};

    ghost Value = { List ℕ };

    ghost view = { λ source. source.rest };
}

impl SoundSource {
    /// A source of these bytes.
    pub fn new(bytes: Vec<u8>) -> SoundSource
        ensures { result ≡ bytes.items }
    {
        SoundSource {
            rest: Rest::new(bytes),
        }
    }
}

impl Source for SoundSource {
    ghost state = { λ bytes. record { left = Some bytes; faults = 0 } };

    /// It reads as many bytes as fit.
    fn read(&mut self, buf: &mut [u8]) -> Result<usize, Failed>
        ensures bound { ReadsAtMost result buf.new }
        ensures bytes { ReadConsumes (Some self.old) (Some self.new) result buf.new }
        ensures count { result ≡ Ok (min (length buf.old) (length self.old)) }
    {
        Ok(self.rest.read(buf))
    }
}
