//! The script of events, which is read and printed, and the printed replies of the server. A line of a script is one
//! event: a moment, one space, and what happens. What is printed is read again (`laws`).
#![tactic(auto)]

mod events;
mod laws;
mod printing;
mod random;
mod replies;

pub use events::read_event;
pub use laws::{
    a_line_spells_one_event, a_printed_history_is_read_again, an_event_is_read_as_it_spells,
    replies_are_printed_in_order,
};
pub use printing::print_event;
pub use replies::{print_outputs, print_refused};
