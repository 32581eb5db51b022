//! The queries that wait to be taken and those that run, as two lists.
//!
//! Whatever is taken was the first that waited, and runs behind all that were taken before it. Room for a query is made
//! when it is added, so that no later call takes memory. A query is found by its number without a search, and taking or
//! ending one moves no other.
#![tactic(auto)]

mod pool;
mod queue;

pub use pool::Pool;
