//! The tests of the service over sockets, workers and programs of the system.
#![tactic(auto)]

#[cfg(test)]
mod file_workers;
#[cfg(test)]
mod peers;
#[cfg(test)]
mod services;
