//! Bearer tokens: JSON Web Tokens (RFC 7519) that are signed by HMAC-SHA-256 (RFC 7515), and the mechanism OAUTHBEARER
//! (RFC 7628), which presents one. `right` answers whether a text is a token that is right at a moment, which the
//! definition `IsRightText` says in the standards' terms. What comes of a client's messages is a relation,
//! `OauthBearerSays`, and `says` answers the one value that it holds of.
#![tactic(auto)]

mod exchange;
mod json;
mod judging;
mod key;
mod laws;
mod message;
mod pairs;
mod token;

pub use exchange::says;
pub use judging::right;
pub use key::TokenKey;
pub use laws::{
    a_message_is_read_as_it_is_spelled, a_part_has_one_spelling, a_token_is_read_as_it_is_written,
    oauth_bearer_says_one_thing, the_example_is_right_until_its_end,
    the_example_of_rfc_7515_is_signed, the_example_of_rfc_7628_is_a_message,
};
