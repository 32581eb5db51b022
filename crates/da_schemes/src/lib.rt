//! Password schemes: a stored password is read from its text, a plaintext is held against it, and a new one is made.
//! `Stored::matches` is the definition `matches` of `specs/Stored.antt`, over MD5, SHA-1, SHA-2, HMAC (RFC 2104) and
//! PBKDF2 (RFC 8018) as functions on lists of bytes.
#![tactic(auto)]

pub use checked::Checked;
pub use digest::same_bytes;
pub use fault::SchemeFault;
pub use hmac::{hi, hmac_md5, hmac_sha256, xor_into};
pub use keys::ScramKeys;
pub use laws::{a_made_password_is_read_and_matches, a_name_is_read_in_any_case};
pub use making::make;
pub use octets::Octets;
pub use scheme::Scheme;
pub use stored::{Stored, scram_keys, scram_salt};

mod checked;
mod digest;
mod fault;
mod hmac;
mod keys;
mod laws;
mod making;
mod octets;
mod read;
mod scheme;
mod secret;
mod stored;
