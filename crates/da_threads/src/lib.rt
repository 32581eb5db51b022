//! The threads of a service over one port: two loops that accept connections (`Shared::accept_conns`), pairs of a reader and
//! a writer, each of which serves one connection after another, and a thread for each worker (`Shared::start_workers`). All
//! of them step with seats of the port, and give them back when its history ends: that is all that their contracts say. What
//! each thread records is told by the contracts of da_session and da_workers.
#![tactic(auto)]

mod accept;
mod crew;
mod desk;
mod pairs;
mod seats;
mod shared;

pub use seats::{Returns, Sitter, join_all, take_in};
pub use shared::Shared;
