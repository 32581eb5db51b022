//! Addresses of the internet protocol and networks of them.
#![tactic(auto)]

mod address;
mod laws;
mod network;
mod parts;

pub use address::Ip;
pub use laws::addresses_are_read_from_their_spellings;
pub use network::{Net, allowed};
