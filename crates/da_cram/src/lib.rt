//! The mechanism CRAM-MD5 (RFC 2195): the client proves that it knows a password by a keyed digest of a challenge. What
//! comes of a client's messages is a relation, `CramSays`, and `says` answers the one value that it holds of.
#![tactic(auto)]

mod challenges;
mod laws;
mod response;

pub use challenges::challenge;
pub use laws::{cram_says_one_thing, the_example_of_rfc_2195_is_right};
pub use response::says;
