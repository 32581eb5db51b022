//! The keys under which answers are kept, and the list of those that a cache has, the most recent first.
#![tactic(auto)]

mod equality;
mod key;
mod keys;

pub use key::{Key, is_same_kind};
pub use keys::{has_key, key_first, with_key, without_key};
