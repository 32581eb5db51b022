//! The tests of da_token.
#![tactic(auto)]

#[cfg(test)]
mod tests;
