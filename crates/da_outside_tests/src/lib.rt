//! The tests of the outside in memory, of runs over lines, of checkpassword programs and of workers.
#![tactic(auto)]

#[cfg(test)]
mod child;
#[cfg(test)]
mod memory;
#[cfg(test)]
mod outside;
#[cfg(test)]
mod stream;
#[cfg(test)]
mod worker;
