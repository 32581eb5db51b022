// Faults of a settings text.
use da_fields::Text;
use std::alloc::AllocError;
use std::fmt;
use thiserror::Error;

/// What is wrong with a setting.
#[derive(Clone, Copy, Debug, Drop, PartialEq, Eq)]
pub enum FaultKind {
    /// The text isn't TOML.
    NotToml,
    /// There is no setting of this name.
    Unknown,
    /// The value is of another kind.
    Kind,
    /// The value is out of its range.
    Range,
    /// The value goes against another one.
    Conflict,
}

/// The first fault of a settings text.
#[derive(Drop)]
pub struct Fault {
    /// The name of the setting, or `settings` for the text as a whole.
    pub place: Text,
    pub kind: FaultKind,
}

impl fmt::Debug for Fault {
    fn fmt<W: fmt::Write>(&self, f: &mut fmt::Formatter<W>) -> fmt::Result {
        write!(f, "{:?} at {:?}", self.kind, self.place.bytes())
    }
}

/// Why a text gave no settings.
#[derive(Debug, Drop, Error)]
pub enum ConfigFault {
    /// The text is no settings text.
    #[error("faulty settings")]
    Bad(Fault),
    /// Want of memory.
    #[error("no memory")]
    NoMemory,
}

impl From<AllocError> for ConfigFault {
    ghost use Rattle.std.specs.Prelude.{◌≡◌};
    ghost use Rattle.da_config.specs.declared.fault.ConfigFault.TheVariants.{NoMemory};

    ghost from_gives = { λ _ fault. fault ≡ NoMemory };

    fn from(_error: AllocError) -> ConfigFault {
        ConfigFault::NoMemory
    }
}
