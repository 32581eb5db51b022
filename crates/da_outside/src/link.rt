ghost use Rattle.std.specs.Prelude.{◌≡◌, ◌++◌, ◌∷◌, [], List, ℕ, None, Ok, Err, MatchResult, is_err, false};
ghost use Rattle.std.specs.Io.{IsEmptyOrEndsWith};
ghost use Rattle.std.specs.Io.KnownBytes.{Keeps};
ghost use Rattle.da_outside.specs.Calls.{fails_next, no_calls};
ghost use Rattle.da_outside.specs.Causes.{HasCause, HasGetCause};
ghost use Rattle.da_outside.specs.Got.{is_fault};
ghost use Rattle.da_outside.specs.Link.{LinkState, mem_link, MemReceives, MemSends, Receives, SendRecalls, SoundReceives, received};
ghost use Rattle.da_outside.specs.Past.{Recalls};

use crate::calls::Calls;
use crate::faults::keep;
use crate::rest::{Ahead, Rest};
use crate::{Bytes, Failed, GetFault, Got};
use std::alloc::{AllocError, Global};
use std::marker::Model;

/// What was said over a link.
#[derive(Debug, Drop)]
pub enum Spoken {
    /// A line was sent.
    Sent(Bytes),
    /// A send failed.
    SendFault,
    /// A receive, and what it gave.
    Received(Got),
}

/// Lines to and from one peer, as a worker.
pub trait Link {
    /// What it tells: the bytes that will come in; its sends and receives, without those that wanted memory; and how
    /// often it failed.
    ghost state: { Self → LinkState };

    /// Sends a line, which is given without its LF.
    fn send(&mut self, line: &[u8]) -> Result<(), Failed>
        ensures left { Keeps (state self.old).left (state self.new).left }
        ensures talk { SendRecalls (state self.old).talk (state self.new).talk line.now result }
        ensures cause { HasCause (state self.old).faults (state self.new).faults result };

    /// The next line, without its LF. It is `Long` exactly where 8193 bytes come without LF. The end of what comes in,
    /// also within a line, is `Failed`.
    fn receive(&mut self, alloc: Global) -> Result<Vec<u8>, GetFault>
        ensures gives { Receives (state self.old).left (state self.new).left result }
        ensures talk { Recalls (state self.old).talk (state self.new).talk (received result) }
        ensures cause { HasGetCause (state self.old).faults (state self.new).faults result };
}

/// A link to which these bytes come in, some calls of which fail. It keeps its talk.
#[derive(Debug, Drop)]
pub struct MemLink {
    rest: Rest,
    talk: Vec<Spoken>,
    calls: Calls,
}

impl Model for MemLink {
    ghost use Rattle.da_outside.specs.Link.{MemLinkState};

    ghost Value = { MemLinkState };

    ghost view = { λ link. record { bytes = link.rest; talk = link.talk.items; calls = link.calls } };
}

impl MemLink {
    /// A link to which these bytes come in. `fail` holds the numbers of the calls that fail, counted from 1.
    pub fn new(alloc: Global, bytes: Vec<u8>, fail: Vec<u64>) -> MemLink
        ensures { result ≡ record { bytes = bytes.items; talk = []; calls = no_calls fail.items } }
    {
        MemLink {
            rest: Rest::new(bytes),
            talk: Vec::new(alloc),
            calls: Calls::new(fail),
        }
    }

    /// The sends and receives, in order.
    pub fn talk(&self) -> &[Spoken]
        ensures { result.now ≡ self.now.talk }
    {
        &self.talk
    }

    /// Its talk, and how often it failed.
    pub(crate) fn end(self) -> (Vec<Spoken>, u64)
        ensures talk { result.0.items ≡ self.talk }
        ensures faults { result.1 ≡ self.calls.faults }
    {
        let faults = self.calls.faults();
        (self.talk, faults)
    }

    /// Keeps a line that is sent.
    fn keep_sent(&mut self, line: &[u8]) -> Result<(), AllocError>
        ensures { MatchResult result
            (λ _. self.new ≡ record self.old { talk = self.old.talk ++ Spoken.Sent line.now ∷ [] })
            (λ _. self.new ≡ self.old) }
    {
        let line = line.to_vec(*self.talk.allocator())?;
        self.talk.push(Spoken::Sent(Bytes::new(line)))?;
        Ok(())
    }
}

impl Link for MemLink {
    ghost state = { mem_link };

    /// It fails where `fail` holds the call's number, and where memory is wanted.
    fn send(&mut self, line: &[u8]) -> Result<(), Failed>
        ensures { MemSends self.old self.new line.now result }
    {
        if self.calls.fails_next() {
            let _ = self.talk.push(Spoken::SendFault);
            self.calls.count(true);
            return Err(Failed);
        }
        let kept = self.keep_sent(line);
        self.calls.count(kept.is_err());
        kept.map_err(|_| Failed)
    }

    /// It fails exactly where `fail` holds the call's number, or no line comes. A call that wants memory changes
    /// nothing, and has no number.
    fn receive(&mut self, alloc: Global) -> Result<Vec<u8>, GetFault>
        ensures { MemReceives self.old self.new result }
    {
        let ahead = self.rest.ahead(self.calls.fails_next());
        let answer = self.rest.line(alloc, ahead);
        let got = keep(alloc, &answer)?;
        let failed = got.is_fault();
        self.talk.push(Spoken::Received(got))?;
        self.rest.pass(ahead);
        self.calls.count(failed);
        answer
    }
}

/// A link to which these whole lines come in, and which never fails. After them empty lines come in.
#[derive(Debug, Drop)]
pub struct SoundLink {
    rest: Rest,
}

impl Model for SoundLink {
    ghost use Rattle.std.specs.Prelude.{List, ℕ};
    ghost use Rattle.std.specs.Io.{IsEmptyOrEndsWith};

    ghost Value = { List ℕ };

    ghost view = { λ link. link.rest };

    ghost invariant = { λ link. IsEmptyOrEndsWith link.rest 10 };
}

impl SoundLink {
    /// A link to which these whole lines come in, each with its LF.
    pub fn new(bytes: Vec<u8>) -> SoundLink
        requires { IsEmptyOrEndsWith bytes.items 10 }
        ensures { result ≡ bytes.items }
    {
        SoundLink {
            rest: Rest::new(bytes),
        }
    }
}

impl Link for SoundLink {
    ghost state = { λ _. record { left = None; talk = None; faults = 0 } };

    fn send(&mut self, _line: &[u8]) -> Result<(), Failed>
        ensures sent { result ≡ Ok tt }
        ensures left { self.new ≡ self.old }
    {
        Ok(())
    }

    fn receive(&mut self, alloc: Global) -> Result<Vec<u8>, GetFault>
        ensures cause { HasGetCause 0 0 result }
        ensures gives { SoundReceives self.old self.new result }
    {
        match self.rest.ahead(false) {
            Ahead::End => Ok(Vec::new(alloc)),
            ahead => self.rest.take_line(alloc, ahead),
        }
    }
}
