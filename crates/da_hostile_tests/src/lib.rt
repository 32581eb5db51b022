//! The tests of the command `drive` whose input, output or script fails at any place, and of a server whose clients ask for
//! as much as they may.
#![tactic(auto)]

#[cfg(test)]
mod cancels;
#[cfg(test)]
mod crowds;
#[cfg(test)]
mod cuts;
#[cfg(test)]
mod events;
#[cfg(test)]
mod faults;
#[cfg(test)]
mod login;
