//! What holds of the tables after each history: what is done stands, open queries are asked, lost ones once more, keys fit,
//! answers, process numbers and ids are distinct. Each law is a contract, and its function does nothing.
#![tactic(auto)]

pub mod invariants;
