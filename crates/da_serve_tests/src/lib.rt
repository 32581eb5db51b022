//! The tests of the service over connections, workers and files in memory: what it prints, also where calls to the outside
//! fail and where its history is full.
#![tactic(auto)]

#[cfg(test)]
mod command;
#[cfg(test)]
mod finish;
#[cfg(test)]
mod one_client;
