//! One server for many threads: `Port` keeps a core behind a turn, and each thread steps with a seat of its own. Each call
//! takes one turn and makes one entry, or none where it is refused, and answers what the sequential server answers at that
//! place (`Records` and `Refuses` of `specs/Calls.antt`). So the entries of all seats are one legal history.
#![tactic(auto)]

mod bell;
mod ends;
mod entries;
mod looks;
mod port;
mod rings;
mod shared;
mod terms;
mod waiting;

pub use bell::Mark;
pub use ends::LoopEnd;
pub use port::Port;
pub use shared::{Seat, SharedCore};
pub use terms::Terms;
