//! A POP3 login process as a machine over events: what it says to its client, to the auth service and to the service's
//! master side, and when the mail program is started. A session starts it at most once, and only for the user of the
//! master side's reply to this session's own request, for a login of its own that the auth service told OK.
#![tactic(auto)]

mod acts;
mod client;
mod commands;
mod event;
mod exchange;
mod laws;
mod link;
mod own_lines;
mod place;
mod pop3;
mod service;
mod step;

pub use event::{Act, Event, Side, StepFault};
pub use laws::{a_session_starts_once, each_start_is_due, ids_rise, printed_lines_are_spelled};
pub use pop3::Pop3;
