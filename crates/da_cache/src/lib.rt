//! The answers that are kept: under each key the number of the query that it was an answer to, the most recent key first.
//!
//! A hit brings its key first, an answer is put first, and the last key falls off where there are more than the cache's
//! size. Keys are found by their hash: no call but `drop_all` touches more keys than it is given, or than a user may have.
//! The hash has a fixed seed, so the time of a call isn't promised against users that are chosen to collide.
#![tactic(auto)]

mod answers;
mod cache;

pub use cache::Cache;
pub use da_keys::Key;
