//! The tests of the server that keeps tables beside its history: it gives out what the server computed from its history does,
//! and its calls tell what they should along the way.
#![tactic(auto)]

#[cfg(test)]
mod both;
#[cfg(test)]
mod calls;
#[cfg(test)]
mod lines;
#[cfg(test)]
mod memory;
#[cfg(test)]
mod scripts;
