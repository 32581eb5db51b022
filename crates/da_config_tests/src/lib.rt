//! The tests of settings.
#![tactic(auto)]

#[cfg(test)]
mod tests;
