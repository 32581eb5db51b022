//! The settings of a server, each value in its range, and the lists that stand in them.
//! `Settings` has the ranges and conflicts of `specs/SettingsRanges.antt` as its invariant: whoever makes settings owes them.
#![tactic(auto)]

mod defaults;
mod lists;
mod settings;

pub use defaults::default_passdb;
pub use lists::{Mechs, Passdbs, Texts, Userdbs};
pub use settings::{Goal, Settings};
