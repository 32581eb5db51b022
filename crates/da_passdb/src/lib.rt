//! The chain of password databases: which database a login asks next, or its verdict, from the answers so far. `next` and
//! `Cursor` are the definition `login_chain` of `specs/LoginChain.antt`, the one from all answers at once, the other
//! answer by answer.
#![tactic(auto)]

mod chain;
mod cursor;
mod database;
mod login;
mod outcome;
mod part;
mod progress;
mod step;
mod walk;

pub use chain::{Chain, Verdict, VerdictKind};
pub use cursor::{Cursor, next};
pub use da_fields::Rule;
pub use database::{Driver, Passdb, Skip, are_valid_passdbs};
pub use login::{Login, Proof};
pub use outcome::password_comparison;
