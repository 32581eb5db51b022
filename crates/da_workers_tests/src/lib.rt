//! The tests of workers: what is recorded of what they say, and workers that hold their answers.
#![tactic(auto)]

#[cfg(test)]
mod answers;
#[cfg(test)]
mod held;
#[cfg(test)]
mod programs;
#[cfg(test)]
mod service;
