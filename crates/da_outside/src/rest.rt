ghost use Rattle.std.specs.Prelude.{◌≡◌, take, drop, length, min, false, Some, IfSome, IsTrue, IsErrOf};
ghost use Rattle.da_outside.specs.Got.{got_of};
ghost use Rattle.da_outside.specs.Link.{Receives};
ghost use Rattle.da_outside.specs.Rest.{IsCutLine, Shows, got_ahead, taken_ahead};

use crate::GetFault;
use std::alloc::Global;
use std::marker::Model;

/// Bytes that are read from their front. In a clause it is the bytes that are left.
#[derive(Debug, Drop)]
pub(crate) struct Rest {
    bytes: Vec<u8>,
    at: usize,
}

impl Model for Rest {
    ghost use Rattle.std.specs.Prelude.{◌≤◌, List, ℕ, drop, length};

    ghost Value = { List ℕ };

    ghost view = { λ rest. drop rest.at rest.bytes.items };

    ghost invariant = { λ rest. rest.at ≤ length rest.bytes.items };
}

impl Rest {
    pub(crate) fn new(bytes: Vec<u8>) -> Rest
        ensures { result ≡ bytes.items }
    {
        Rest { bytes, at: 0 }
    }

    /// Moves as many bytes as fit to the front of `buf`, and answers how many.
    pub(crate) fn read(&mut self, buf: &mut [u8]) -> usize
        ensures count { result ≡ min (length buf.old) (length self.old) }
        ensures front { take result buf.new ≡ take result self.old }
        ensures left { self.new ≡ drop result self.old }
    {
        let left = &self.bytes[self.at..];
        let count = left.len().min(buf.len());
        buf[..count].copy_from_slice(&left[..count]);
        self.at += count;
        count
    }

    /// What the bytes begin with; nothing is looked for where the call `fails`.
    pub(crate) fn ahead(&self, fails: bool) -> Ahead
        ensures shows { Shows self.now result }
        ensures fails { IsTrue fails → result ≡ Ahead.End }
        ensures end { fails ≡ false → result ≡ Ahead.End → IsCutLine self.now }
    {
        if fails {
            return Ahead::End;
        }
        look_ahead(&self.bytes[self.at..])
    }

    /// A copy of the line that stands there.
    pub(crate) fn line(&self, alloc: Global, ahead: Ahead) -> Result<Vec<u8>, GetFault>
        requires { Shows self.now ahead }
        ensures { IfSome (got_of result) (λ got. got ≡ got_ahead self.now ahead) }
    {
        match ahead {
            Ahead::Line(count) => Ok(self.bytes[self.at..][..count].to_vec(alloc)?),
            Ahead::Long => Err(GetFault::Long),
            Ahead::End => Err(GetFault::Failed),
        }
    }

    /// Takes the line that stands there with its LF, and gives it.
    pub(crate) fn take_line(&mut self, alloc: Global, ahead: Ahead) -> Result<Vec<u8>, GetFault>
        requires { Shows self.old ahead }
        ensures takes { Receives (Some self.old) (Some self.new) result }
        ensures failed { IsErrOf result GetFault.Failed → ahead ≡ Ahead.End }
    {
        match ahead {
            Ahead::Line(count) => {
                let line = self.bytes[self.at..][..count].to_vec(alloc)?;
                self.at += count + 1;
                Ok(line)
            }
            Ahead::Long => {
                self.at += LONGEST + 1;
                Err(GetFault::Long)
            }
            Ahead::End => Err(GetFault::Failed),
        }
    }

    /// Takes what stands there, a line with its LF.
    pub(crate) fn pass(&mut self, ahead: Ahead)
        requires { Shows self.old ahead }
        ensures { self.new ≡ drop (taken_ahead ahead) self.old }
    {
        self.at += match ahead {
            Ahead::Line(count) => count + 1,
            Ahead::Long => LONGEST + 1,
            Ahead::End => 0,
        };
    }
}

/// The longest line, in bytes.
const LONGEST: usize = 8192;

/// What bytes begin with.
#[derive(Clone, Copy, Debug)]
pub(crate) enum Ahead {
    /// A line of so many bytes, and its LF.
    Line(usize),
    /// More bytes than a line has, without LF.
    Long,
    /// The beginning of a line, or nothing.
    End,
}

/// Looks for the end of the first line.
fn look_ahead(bytes: &[u8]) -> Ahead
    ensures shows { Shows bytes.now result }
    ensures end { result ≡ Ahead.End → IsCutLine bytes.now }
{
    let near = &bytes[..bytes.len().min(LONGEST + 1)];
    for (at, byte) in near.iter().enumerate() {
        if *byte == b'\n' {
            return Ahead::Line(at);
        }
    }
    if near.len() > LONGEST {
        Ahead::Long
    } else {
        Ahead::End
    }
}
