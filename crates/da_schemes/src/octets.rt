// A list of bytes.
ghost use Rattle.std.specs.Prelude.{◌≡◌, ◌≤◌, length, take, drop, IfOk};

use std::alloc::{AllocError, Global};
use std::marker::Model;

/// A list of bytes, as a password, a salt or a digest.
#[derive(Drop)]
pub struct Octets {
    bytes: Vec<u8>,
}

impl Model for Octets {
    ghost use Rattle.std.specs.Prelude.{ℕ, List};

    ghost Value = { List ℕ };

    ghost view = { λ o. o.bytes.items };
}

impl Octets {
    /// The bytes of this vector.
    pub fn new(bytes: Vec<u8>) -> Octets
        ensures { result ≡ bytes.items }
    {
        Octets { bytes }
    }

    /// The bytes.
    pub fn bytes(&self) -> &[u8]
        ensures { result.now ≡ self.now }
    {
        &self.bytes
    }

    /// An equal list.
    pub fn copy(&self, alloc: Global) -> Result<Octets, AllocError>
        ensures { IfOk result (λ octets. octets ≡ self.now) }
    {
        Ok(Octets::new(Vec::from_slice(alloc, &self.bytes)?))
    }

    /// The first bytes up to a place, and those from there on.
    pub(crate) fn split(mut self, alloc: Global, at: usize) -> Result<(Octets, Octets), AllocError>
        requires { at ≤ length self }
        ensures { IfOk result (λ p. (p.0 ≡ take at self) × (p.1 ≡ drop at self)) }
    {
        let back = Vec::from_slice(alloc, &self.bytes[at..])?;
        self.bytes.truncate(at);
        Ok((self, Octets::new(back)))
    }
}
