//! One entry more after a history. `Replayed` is what a history comes to when it is replayed: the tables at its end, and how
//! many bytes it may still grow by. From these follow whether an input may be the next entry (`Replayed::refusal`), that
//! entry with all that it gives out, and what the history comes to with it (`Replayed::enter`). A server that keeps the list
//! of its entries alone replays them (`Replayed::pass`); one that keeps this beside the list replays nothing. The lines of
//! replies are made here.
#![tactic(auto)]

mod effects;
mod history;
mod refusals;
mod replayed;
mod replies;
mod sizes;

pub use replayed::{Entered, Replayed, entry_moment};
pub use replies::{challenge_line, final_line};
