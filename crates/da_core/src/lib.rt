//! The sequential server with what follows from its history kept beside it: the tables, how many bytes the history may still
//! grow by, when the next reply to each request comes due (one that is held back, or that of its limit), and the bytes that
//! were sent to each connection. `Core::step` answers what the server computed from its history answers (`Steps` of
//! `da_play`), and no step goes through the entries before it.
#![tactic(auto)]

mod clock;
mod counts;
mod outgoing;
mod server;

pub use clock::Due;
pub use da_play::{Entry, Input, Outputs, Refused, Sent};
pub use da_settings::{Goal, Mechs, Passdbs, Settings, Texts, Userdbs};
pub use da_tables::Numbers;
pub use outgoing::Taken;
pub use server::Core;
