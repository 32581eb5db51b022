//! Scripts of events, each with the settings under which it is played, what is written for it, and how its play ends. The
//! tests of the command `drive` and of the servers play them.
#![tactic(auto)]

mod cases;
pub mod codes;
pub mod connections;
pub mod databases;
pub mod delays;
pub mod expired;
pub mod first_login;
pub mod handovers;
pub mod limits;
pub mod lost_queries;
pub mod mechanisms;
pub mod the_cache;
pub mod whole_paths;

pub use cases::{AT_ONCE, Case, expanded};
