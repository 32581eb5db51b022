//! Replies that are held back, each as a pair of its due moment and its request's number.
//!
//! The pairs are a list in order, by the due moment and then by the number: it holds each pair that was pushed and not
//! removed since, once. The first pair that is due is had without a search, and `push` and `remove` take time that grows
//! with the logarithm of the number of pairs.
#![tactic(auto)]

mod delays;

pub use delays::Delays;
