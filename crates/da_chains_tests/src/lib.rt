//! The tests of the chains of databases.
#![tactic(auto)]

#[cfg(test)]
mod cases;
#[cfg(test)]
mod passdb;
#[cfg(test)]
mod userdb;
