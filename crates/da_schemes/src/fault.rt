// Why a text is no stored password.
use std::alloc::AllocError;
use thiserror::Error;

/// Why a text is no stored password.
#[derive(Debug, Drop, PartialEq, Eq, Error)]
pub enum SchemeFault {
    /// The name in braces is no scheme or encoding.
    #[error("unknown password scheme")]
    UnknownScheme,
    /// The text is off its scheme's form.
    #[error("malformed stored password")]
    BadText,
    /// Want of memory.
    #[error("no memory")]
    NoMemory,
}

impl From<AllocError> for SchemeFault {
    ghost use Rattle.std.specs.Prelude.{◌≡◌};
    ghost use Rattle.da_schemes.specs.declared.fault.SchemeFault.TheVariants.{NoMemory};

    ghost from_gives = { λ _ fault. fault ≡ NoMemory };

    fn from(_error: AllocError) -> SchemeFault {
        SchemeFault::NoMemory
    }
}
