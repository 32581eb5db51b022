//! The settings of a server, as a text in TOML (version 1.1). `read` answers the settings that the text stands for, or
//! its first fault with its place; `specs/SettingsText.antt` and the files that it stands on say which these are.
#![tactic(auto)]

mod arrays;
mod choices;
mod databases;
mod document;
mod fault;
mod fields;
mod groups;
mod mechanisms;
mod part;
mod passdb;
mod rules;
mod server;
mod userdb;

pub use document::read;
pub use fault::{ConfigFault, Fault, FaultKind};
