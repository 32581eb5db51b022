//! Worked runs of the sequential server, computed from its definitions alone. Each is a contract, and its function does
//! nothing.
#![tactic(auto)]

pub mod worked_runs;
