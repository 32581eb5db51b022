//! The messages of the authentication protocol: what clients (login processes) and masters (mail processes) send, and
//! the lines that the service sends to them.
#![tactic(auto)]

mod client;
mod code;
mod greetings;
mod kinds;
mod laws;
mod master;
mod parameters;
mod printing;
mod reading;

pub use client::{ClientMsg, Reply};
pub use code::Code;
pub use greetings::{greeting, handshake};
pub use kinds::{ConnKind, Mech};
pub use laws::{
    a_client_line_is_read_as_it_spells, a_client_line_spells_one_message, a_failure_tells_its_code,
    a_master_line_is_read_as_it_spells, a_master_line_spells_one_message,
};
pub use master::{MasterMsg, MasterReply};
pub use reading::{first, texts_of};
