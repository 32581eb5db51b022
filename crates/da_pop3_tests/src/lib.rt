//! The tests of da_pop3.
#![tactic(auto)]

#[cfg(test)]
mod sessions;
#[cfg(test)]
mod tests;
