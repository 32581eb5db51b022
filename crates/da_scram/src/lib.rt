//! The mechanism SCRAM-SHA-256 (RFC 5802, RFC 7677): client and server prove to each other that they know keys of a
//! password, without channel binding. What comes of a client's messages is a relation, `ScramSays`, and `says` answers
//! the one value that it holds of.
#![tactic(auto)]

mod exchange;
mod final_message;
mod first_message;
mod laws;
mod names;
mod server;

pub use exchange::says;
pub use first_message::is_flag;
pub use laws::{
    a_first_message_is_read_as_it_is_spelled, a_last_message_is_read_as_it_is_spelled,
    scram_says_one_thing, the_example_of_rfc_7677_is_right,
};
pub use names::read_authzid;
pub use server::request_salt;
