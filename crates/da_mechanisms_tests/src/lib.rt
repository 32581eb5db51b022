//! The tests of password schemes and mechanisms.
#![tactic(auto)]

#[cfg(test)]
mod cases;
#[cfg(test)]
mod cram;
#[cfg(test)]
mod plain;
#[cfg(test)]
mod schemes;
#[cfg(test)]
mod scram;
