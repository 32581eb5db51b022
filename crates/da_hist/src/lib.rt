//! The sequential server: what happens is a history of entries, and each reply follows from the whole history.
//! `Plain::step` is that server, computed from the list of entries each time; `Steps` of `da_play` says what it answers, by
//! the play of events.
#![tactic(auto)]

mod plain;
mod replay;

pub use da_play::{Entry, Input, Outputs, Refused, Sent};
pub use da_settings::{Goal, Mechs, Passdbs, Settings, Texts, Userdbs};
pub use da_tables::Numbers;
pub use plain::Plain;
