//! The tests of files, streams, child processes, sockets and random bytes as the system has them.
#![tactic(auto)]

#[cfg(test)]
mod answers;
#[cfg(test)]
mod children;
#[cfg(test)]
mod reads;
#[cfg(test)]
mod sockets;
