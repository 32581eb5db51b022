//! The tests of lines, names, networks, fields, messages and queries.
#![tactic(auto)]

#[cfg(test)]
mod cases;
#[cfg(test)]
mod fields;
#[cfg(test)]
mod msgs;
#[cfg(test)]
mod names;
#[cfg(test)]
mod nets;
#[cfg(test)]
mod query;
#[cfg(test)]
mod tabline;
