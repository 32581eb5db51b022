//! The service: `run_serve` serves connections at two sockets until its goal is met or its history is full, and then prints
//! the history (`finish_serve` of da_finish). What was read, bound and written, and what caused the end, stands in its
//! contract for every status (`specs/Serving.antt`).
//!
//! It runs the threads of da_threads beside one that lets time pass, and joins them all. They step with seats of one port,
//! and come back when its history has ended.
#![tactic(auto)]

mod serve;
mod service;

pub use serve::run_serve;
