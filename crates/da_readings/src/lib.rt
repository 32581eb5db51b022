//! The tables read as sentences on the history: each list and each moment in them is what the entries say. Each law is a
//! contract, and its function does nothing.
#![tactic(auto)]

pub mod readings;
