ghost use Rattle.std.specs.Prelude.{◌≡◌, [], List, ℕ, None, Some, Ok, IsErr, IsErrOf, IsOkAnd, IsTrue, is_err, false};
ghost use Rattle.std.specs.Result.{result_ok};
ghost use Rattle.da_outside.specs.Calls.{called, fails_next, no_calls};
ghost use Rattle.da_outside.specs.Causes.{HasGetCause};
ghost use Rattle.da_outside.specs.Listen.{ListenState, SoundAccepts, mem_listen};
ghost use Rattle.da_outside.specs.Past.{Stays, Takes};

use crate::calls::Calls;
use crate::first::take_first;
use crate::{GetFault, MemSink, MemSource, Sink, SoundSink, SoundSource, Source};
use std::alloc::Global;
use std::marker::Model;

/// A socket that connections come in at.
pub trait Listen {
    type Source: Source;

    type Sink: Sink;

    /// What it tells: the connections to come, and how often it failed.
    ghost state: { Self → ListenState (Self.Source × Self.Sink) };

    /// Binds it to a path. It is never `Long`.
    fn bind(&mut self, alloc: Global, path: &[u8]) -> Result<(), GetFault>
        ensures never_long { IsErrOf result GetFault.Long → ⊥ }
        ensures left { Stays (state self.old).left (state self.new).left }
        ensures cause { HasGetCause (state self.old).faults (state self.new).faults result };

    /// The next connection. It is never `Long`.
    fn accept(&mut self, alloc: Global) -> Result<(Self::Source, Self::Sink), GetFault>
        ensures never_long { IsErrOf result GetFault.Long → ⊥ }
        ensures left { Takes (state self.old).left (state self.new).left (result_ok result) }
        ensures cause { HasGetCause (state self.old).faults (state self.new).faults result };
}

/// A listener that gives these connections, and some calls of which fail.
#[derive(Debug, Drop)]
pub struct MemListen {
    conns: Vec<(MemSource, MemSink)>,
    calls: Calls,
}

impl Model for MemListen {
    ghost use Rattle.da_outside.specs.Listen.{MemListenState};

    ghost Value = { MemListenState };

    ghost view = { λ listen. record { left = listen.conns.items; calls = listen.calls } };
}

impl MemListen {
    /// A listener that gives these connections. `fail` holds the numbers of the calls that fail, counted from 1.
    pub fn new(conns: Vec<(MemSource, MemSink)>, fail: Vec<u64>) -> MemListen
        ensures { result ≡ record { left = conns.items; calls = no_calls fail.items } }
    {
        MemListen {
            conns,
            calls: Calls::new(fail),
        }
    }
}

impl Listen for MemListen {
    type Source = MemSource;

    type Sink = MemSink;

    ghost state = { mem_listen };

    /// It fails exactly where `fail` holds the call's number.
    fn bind(&mut self, _alloc: Global, _path: &[u8]) -> Result<(), GetFault>
        ensures never_long { IsErrOf result GetFault.Long → ⊥ }
        ensures left { Stays (Some self.old.left) (Some self.new.left) }
        ensures cause { HasGetCause self.old.calls.faults self.new.calls.faults result }
        ensures fails { is_err result ≡ fails_next self.old.calls }
        ensures calls { self.new.calls ≡ called self.old.calls (is_err result) }
    {
        if self.calls.fails_next() {
            self.calls.count(true);
            return Err(GetFault::Failed);
        }
        self.calls.count(false);
        Ok(())
    }

    /// It fails exactly where `fail` holds the call's number or no connection is left.
    fn accept(&mut self, _alloc: Global) -> Result<(MemSource, MemSink), GetFault>
        ensures never_long { IsErrOf result GetFault.Long → ⊥ }
        ensures left { Takes (Some self.old.left) (Some self.new.left) (result_ok result) }
        ensures cause { HasGetCause self.old.calls.faults self.new.calls.faults result }
        ensures failed { IsErr result → fails_next self.old.calls ≡ false → self.old.left ≡ [] }
        ensures listed { IsTrue (fails_next self.old.calls) → IsErr result }
        ensures calls { self.new.calls ≡ called self.old.calls (is_err result) }
    {
        if self.calls.fails_next() {
            self.calls.count(true);
            return Err(GetFault::Failed);
        }
        let Some(conn) = take_first(&mut self.conns) else {
            self.calls.count(true);
            return Err(GetFault::Failed);
        };
        self.calls.count(false);
        Ok(conn)
    }
}

/// A listener that gives these connections without a fault, and then ones without bytes.
#[derive(Debug, Drop)]
pub struct SoundListen {
    conns: Vec<(SoundSource, SoundSink)>,
}

impl Model for SoundListen {
    ghost use Rattle.std.specs.Prelude.{List, ℕ};
    ghost use Rattle.da_outside.specs.declared.sink.SoundSink.{SoundSink};

    ghost Value = { List (List ℕ × SoundSink) };

    ghost view = { λ listen. listen.conns.items };
}

impl SoundListen {
    /// A listener that gives these connections.
    pub fn new(conns: Vec<(SoundSource, SoundSink)>) -> SoundListen
        ensures { result ≡ conns.items }
    {
        SoundListen { conns }
    }
}

impl Listen for SoundListen {
    type Source = SoundSource;

    type Sink = SoundSink;

    ghost state = { λ _. record { left = None; faults = 0 } };

    fn bind(&mut self, _alloc: Global, _path: &[u8]) -> Result<(), GetFault>
        ensures bound { result ≡ Ok tt }
        ensures left { self.new ≡ self.old }
    {
        Ok(())
    }

    fn accept(&mut self, alloc: Global) -> Result<(SoundSource, SoundSink), GetFault>
        ensures { IsOkAnd result (SoundAccepts self.old self.new) }
    {
        let Some(conn) = take_first(&mut self.conns) else {
            return Ok((SoundSource::new(Vec::new(alloc)), SoundSink::new()));
        };
        Ok(conn)
    }
}
