//! The chain of user databases: which database a lookup of a user asks next, or what it finds, from the answers so far.
//! `user_next` and `UserCursor` are the definition `user_chain` of `specs/UserChain.antt`, the one from all answers at
//! once, the other answer by answer.
#![tactic(auto)]

mod cursor;
mod database;
mod progress;
mod step;
mod walk;

pub use cursor::{UserCursor, user_next};
pub use da_fields::Rule as UserRule;
pub use database::{Lookup, UserChain, UserDriver, UserSkip, Userdb, are_valid_userdbs};
