//! The mechanisms that send a password as it is: PLAIN (RFC 4616) and LOGIN. What comes of a client's messages is a
//! relation, `PlainSays` and `LoginSays`, and each call answers the one value that it holds of.
#![tactic(auto)]

mod laws;
mod login;
mod plain;

pub use laws::{login_says_one_thing, plain_says_one_thing};
pub use login::login_says;
pub use plain::plain_says;
