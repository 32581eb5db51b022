// Kinds of connections, and mechanisms.

ghost use Rattle.std.specs.Prelude.{◌≡◌, IfOk};
ghost use Rattle.da_msgs.specs.Replies.{mechanism_name, mechanism_named};

use std::alloc::{AllocError, Global};

/// Who speaks on a connection.
#[derive(Clone, Copy, Drop, PartialEq, Eq)]
pub enum ConnKind {
    /// A login process, which authenticates users.
    Client,
    /// A mail process, which asks for users that were authenticated.
    Master,
}

/// A mechanism of SASL.
#[derive(Clone, Copy, Drop, PartialEq, Eq)]
pub enum Mech {
    /// PLAIN (RFC 4616).
    Plain,
    /// LOGIN.
    Login,
    /// CRAM-MD5 (RFC 2195).
    CramMd5,
    /// SCRAM-SHA-256 (RFC 7677).
    ScramSha256,
}

impl Mech {
    /// The name of the mechanism, in capitals.
    pub fn name(self) -> &'static [u8]
        ensures { result.now ≡ mechanism_name self }
    {
        match self {
            Mech::Plain => b"PLAIN",
            Mech::Login => b"LOGIN",
            Mech::CramMd5 => b"CRAM-MD5",
            Mech::ScramSha256 => b"SCRAM-SHA-256",
        }
    }

    /// The mechanism of this name among these, without regard to case. `None` exactly where there is none.
    pub fn named(alloc: Global, name: &[u8], mechs: &[Mech]) -> Result<Option<Mech>, AllocError>
        ensures { IfOk result (λ mech. mech ≡ mechanism_named name.now mechs.now) }
    {
        let capitals = name.to_ascii_uppercase(alloc)?;
        for mech in mechs {
            if capitals.as_slice() == mech.name() {
                return Ok(Some(*mech));
            }
        }
        Ok(None)
    }
}
