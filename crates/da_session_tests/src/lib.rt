//! The tests of the sessions of a running service: a connection that is read and then written over one port, and time that
//! passes.
#![tactic(auto)]

#[cfg(test)]
mod clock;
#[cfg(test)]
mod connections;
#[cfg(test)]
mod history;
#[cfg(test)]
mod service;
#[cfg(test)]
mod session;
