ghost use Rattle.std.specs.Prelude.{◌≡◌, Some, IfOk, IfSome};
ghost use Rattle.da_outside.specs.declared.faults.GetFault.TheVariants.{Failed as TheFailed, NoMemory};
ghost use Rattle.da_outside.specs.Got.{got_of, got_within, is_fault};

use crate::Bytes;
use std::alloc::{AllocError, AllocFailed, Global};

/// The call failed, and the object counted that.
#[derive(Clone, Copy, Debug, PartialEq, Eq)]
pub struct Failed;

/// Why a call that gives bytes, or a part of the outside, gave none.
#[derive(Clone, Copy, Debug, PartialEq, Eq)]
pub enum GetFault {
    /// The call failed, and the object counted that.
    Failed,
    /// There are more bytes than the call may give.
    Long,
    /// Memory was wanted.
    NoMemory,
}

impl From<Failed> for GetFault {
    ghost from_gives = { λ _ fault. fault ≡ TheFailed };

    fn from(_: Failed) -> Self {
        GetFault::Failed
    }
}

impl From<AllocError> for GetFault {
    ghost from_gives = { λ _ fault. fault ≡ NoMemory };

    fn from(_: AllocError) -> Self {
        GetFault::NoMemory
    }
}

impl<T: Drop> From<AllocFailed<T>> for GetFault {
    ghost from_gives = { λ _ fault. fault ≡ NoMemory };

    fn from(_: AllocFailed<T>) -> Self {
        GetFault::NoMemory
    }
}

/// What an object keeps of a call that gives bytes.
#[derive(Debug, Drop)]
pub enum Got {
    /// The bytes given.
    Given(Bytes),
    /// There were more bytes than the call may give.
    TooLong,
    /// The call failed.
    Fault,
}

impl Got {
    /// Whether the call failed.
    pub(crate) fn is_fault(&self) -> bool
        ensures { result ≡ is_fault self.now }
    {
        match self {
            Got::Given(_) | Got::TooLong => false,
            Got::Fault => true,
        }
    }
}

/// A copy of these bytes, or `Long` where they are more than `max`.
pub(crate) fn give(alloc: Global, bytes: &[u8], max: usize) -> Result<Vec<u8>, GetFault>
    ensures { IfSome (got_of result) (λ got. got ≡ got_within max bytes.now) }
{
    if bytes.len() > max {
        return Err(GetFault::Long);
    }
    Ok(bytes.to_vec(alloc)?)
}

/// What is kept of an answer. An answer that wanted memory is an error, as one is that no memory is left for.
pub(crate) fn keep(alloc: Global, answer: &Result<Vec<u8>, GetFault>) -> Result<Got, AllocError>
    ensures { IfOk result (λ got. got_of answer.now ≡ Some got) }
{
    match answer {
        Ok(bytes) => Ok(Got::Given(Bytes::new(bytes.as_slice().to_vec(alloc)?))),
        Err(GetFault::Long) => Ok(Got::TooLong),
        Err(GetFault::Failed) => Ok(Got::Fault),
        Err(GetFault::NoMemory) => Err(AllocError),
    }
}
