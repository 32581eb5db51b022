// The variables of templates.

ghost use Rattle.std.specs.Prelude.{◌≡◌, IfOk};

use std::alloc::{AllocError, Global};
use std::marker::Model;

/// The value of a variable: a list of bytes.
#[derive(Drop)]
pub struct VarText {
    bytes: Vec<u8>,
}

impl Model for VarText {
    ghost use Rattle.std.specs.Prelude.{List, ℕ};

    ghost Value = { List ℕ };

    ghost view = { λ t. t.bytes.items };
}

impl VarText {
    /// The value of these bytes. It takes no memory.
    pub fn new(bytes: Vec<u8>) -> VarText
        ensures { result ≡ bytes.items }
    {
        VarText { bytes }
    }

    /// The value of a copy of these bytes.
    pub fn from_slice(alloc: Global, bytes: &[u8]) -> Result<VarText, AllocError>
        ensures { IfOk result (λ made. made ≡ bytes.now) }
    {
        Ok(VarText::new(Vec::from_slice(alloc, bytes)?))
    }

    /// The bytes of the value.
    pub fn bytes(&self) -> &[u8]
        ensures { result.now ≡ self.now }
    {
        &self.bytes
    }

    /// An equal value.
    pub fn copy(&self, alloc: Global) -> Result<VarText, AllocError>
        ensures { IfOk result (λ made. made ≡ self.now) }
    {
        VarText::from_slice(alloc, &self.bytes)
    }
}

/// What the variables of a template stand for.
#[derive(Drop)]
pub struct Vars {
    /// The user name: `%u`, and its parts `%n` and `%d`.
    pub user: VarText,
    /// The service: `%s`.
    pub service: VarText,
    /// The address of the client, or empty where it is not known: `%r`.
    pub rip: VarText,
    /// The address of the server, or empty where it is not known: `%l`.
    pub lip: VarText,
}

impl Vars {
    /// Equal values.
    pub fn copy(&self, alloc: Global) -> Result<Vars, AllocError>
        ensures { IfOk result (λ made. made ≡ self.now) }
    {
        Ok(Vars {
            user: self.user.copy(alloc)?,
            service: self.service.copy(alloc)?,
            rip: self.rip.copy(alloc)?,
            lip: self.lip.copy(alloc)?,
        })
    }
}
