// How a command ended.

ghost use Rattle.std.specs.Prelude.{◌≡◌, ◌++◌, codes, decimal, IfOk};
ghost use Rattle.da_command.specs.Statuses.{status_code, status_words, kind_words};

use da_config::{Fault, FaultKind};
use std::alloc::{AllocError, Global};

/// How a command ended.
#[derive(Drop)]
pub enum Status {
    /// The job is done.
    Done,
    /// The words are off the table of commands.
    Usage,
    /// This line of the script is the first that is no event, or the input ends within it.
    BadScript { line: u64 },
    /// The input has more than 1,073,741,824 bytes.
    LongScript,
    /// The input is off its form.
    BadInput,
    /// The settings file can't be read.
    NoSettings,
    /// A socket can't be bound.
    NoListen,
    /// Memory was wanted.
    NoMemory,
    /// The input failed.
    ReadFault,
    /// The output failed.
    WriteFault,
    /// The history has as many entries or bytes as it may have.
    Full,
    /// The text of the settings file is no settings text.
    BadSettings { fault: Fault },
}

fn words_of_kind(kind: FaultKind) -> &'static [u8]
    ensures { result.now ≡ kind_words kind }
{
    match kind {
        FaultKind::NotToml => b"not toml",
        FaultKind::Unknown => b"unknown",
        FaultKind::Kind => b"kind",
        FaultKind::Range => b"range",
        FaultKind::Conflict => b"conflict",
    }
}

impl Status {
    /// The exit code, after `sysexits.h`.
    pub fn code(&self) -> u8
        ensures { result ≡ status_code self.now }
    {
        match self {
            Status::Done => 0,
            Status::Usage => 64,
            Status::BadScript { .. } | Status::LongScript | Status::BadInput => 65,
            Status::NoSettings => 66,
            Status::NoListen => 69,
            Status::NoMemory => 71,
            Status::ReadFault | Status::WriteFault => 74,
            Status::Full => 75,
            Status::BadSettings { .. } => 78,
        }
    }

    /// The words for a person; none where the job is done.
    pub fn words(&self, alloc: Global) -> Result<Vec<u8>, AllocError>
        ensures { IfOk result (λ words. words.items ≡ status_words self.now) }
    {
        match self {
            Status::Done => Ok(Vec::new(alloc)),
            Status::Usage => Vec::from_slice(alloc, b"usage"),
            Status::BadScript { line } => line_words(alloc, *line),
            Status::LongScript => Vec::from_slice(alloc, b"input too long"),
            Status::BadInput => Vec::from_slice(alloc, b"bad input"),
            Status::NoSettings => Vec::from_slice(alloc, b"no settings"),
            Status::NoListen => Vec::from_slice(alloc, b"cannot listen"),
            Status::NoMemory => Vec::from_slice(alloc, b"no memory"),
            Status::ReadFault => Vec::from_slice(alloc, b"read fault"),
            Status::WriteFault => Vec::from_slice(alloc, b"write fault"),
            Status::Full => Vec::from_slice(alloc, b"history full"),
            Status::BadSettings { fault } => fault_words(alloc, fault),
        }
    }
}

fn line_words(alloc: Global, line: u64) -> Result<Vec<u8>, AllocError>
    ensures { IfOk result (λ words. words.items ≡ codes "line " ++ decimal line ++ codes " is not an event") }
{
    let mut words = Vec::from_slice(alloc, b"line ")?;
    words.extend_from_slice(line.to_string(alloc)?.as_bytes())?;
    words.extend_from_slice(b" is not an event")?;
    Ok(words)
}

fn fault_words(alloc: Global, fault: &Fault) -> Result<Vec<u8>, AllocError>
    ensures { IfOk result (λ words. words.items ≡ codes "bad settings at " ++ fault.now.place ++ codes ": " ++ kind_words fault.now.kind) }
{
    let mut words = Vec::from_slice(alloc, b"bad settings at ")?;
    words.extend_from_slice(fault.place.bytes())?;
    words.extend_from_slice(b": ")?;
    words.extend_from_slice(words_of_kind(fault.kind))?;
    Ok(words)
}
