//! The tests of da_port.
#![tactic(auto)]

#[cfg(test)]
mod client;
#[cfg(test)]
mod crew;
#[cfg(test)]
mod replay;
#[cfg(test)]
mod ticks;
#[cfg(test)]
mod waits;
