//! Laws of the sequential server: replies, limits, codes, logins, hand-overs, hits and plays. Each law is a contract, and its
//! function does nothing.
#![tactic(auto)]

pub mod code_laws;
pub mod delay_laws;
pub mod laws;
pub mod limit_laws;
