// Lines out of what a reader gives.

ghost use Rattle.std.specs.Prelude.{◌≡◌, ◌<◌, ◌≤◌, ◌++◌, ◌∷◌, [], Some, OnOk, IsErrOf, IsTrue, IsFalse, None, drop, length};
ghost use Rattle.std.specs.Io.KnownBytes.{Appends, Keeps, prepend_known};
ghost use Rattle.da_outside.specs.Link.{Receives};
ghost use Rattle.da_unix.specs.Reads.{ShowsLine};

use crate::patient::read_on;
use da_outside::GetFault;
use da_tabline::split_at_byte;
use std::alloc::Global;
use std::io::{self, Read, Write};

/// The longest line, in bytes.
const LONGEST_LINE: usize = 8192;

const CHUNK: usize = 4096;

// Lets the first bytes go.
fn let_go(bytes: &mut Vec<u8>, count: usize)
    requires { count ≤ length bytes.old.items }
    ensures { bytes.new.items ≡ drop count bytes.old.items }
{
    bytes.drain(..count);
}

// Whether an LF stands there, or more bytes than a line may have.
fn shows_line(bytes: &[u8]) -> bool
    ensures shows { IsTrue result → ShowsLine bytes.now }
    ensures few { IsFalse result → length bytes.now ≤ 8192 }
{
    match split_at_byte(bytes, b'\n') {
        Some(_) => true,
        None => bytes.len() > LONGEST_LINE,
    }
}

/// The bytes that were read beyond the last line.
#[derive(Drop)]
pub struct Held {
    bytes: Vec<u8>,
}

impl Held {
    pub fn new(alloc: Global) -> Held
        ensures { result.bytes.items ≡ [] }
    {
        Held {
            bytes: Vec::new(alloc),
        }
    }

    // Reads some more bytes. The end, and an error, change nothing.
    fn fill<R: Read>(&mut self, from: &mut R) -> Result<(), GetFault>
        ensures more { OnOk result (length self.old.bytes.items < length self.new.bytes.items) }
        ensures kept { Keeps (prepend_known self.old.bytes.items (R.remaining from.old))
            (prepend_known self.new.bytes.items (R.remaining from.new)) }
        ensures never_long { IsErrOf result GetFault.Long → ⊥ }
    {
        self.bytes.reserve(CHUNK)?;
        let mut chunk = [0; CHUNK];
        match read_on(from, &mut chunk) {
            Ok(0) => Err(GetFault::Failed),
            Ok(count) => {
                self.bytes.extend_from_slice(&chunk[..count]).unwrap();
                Ok(())
            }
            Err(_) => Err(GetFault::Failed),
        }
    }

    // Takes the first line and its LF, or the front of one that is too long.
    fn take_line(&mut self, alloc: Global) -> Result<Vec<u8>, GetFault>
        requires { ShowsLine self.old.bytes.items }
        ensures { Receives (Some self.old.bytes.items) (Some self.new.bytes.items) result }
    {
        match split_at_byte(&self.bytes, b'\n') {
            Some((line, _)) if line.len() <= LONGEST_LINE => {
                let line = Vec::from_slice(alloc, line)?;
                let_go(&mut self.bytes, line.len() + 1);
                Ok(line)
            }
            _ => {
                let_go(&mut self.bytes, LONGEST_LINE + 1);
                Err(GetFault::Long)
            }
        }
    }

    /// The next line, without its LF. The end of what the reader gives ends no line.
    pub fn next_line<R: Read>(&mut self, alloc: Global, from: &mut R) -> Result<Vec<u8>, GetFault>
        ensures { Receives (prepend_known self.old.bytes.items (R.remaining from.old))
            (prepend_known self.new.bytes.items (R.remaining from.new)) result }
    {
        while !shows_line(&self.bytes) {
            self.fill(from)?;
        }
        self.take_line(alloc)
    }

    /// The same, where nothing is told of what the reader gives.
    pub fn next_untold<R: Read>(&mut self, alloc: Global, from: &mut R) -> Result<Vec<u8>, GetFault>
        ensures { Receives None None result }
    {
        self.next_line(alloc, from)
    }
}

/// Writes the line and its LF.
pub fn write_line<W: Write>(to: &mut W, line: &[u8]) -> io::Result<()>
    ensures { OnOk result (Appends (W.contents to.old) (W.contents to.new) (line.now ++ 10 ∷ [])) }
{
    to.write_all(line)?;
    to.write_all(b"\n")
}
