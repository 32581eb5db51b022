//! Scripts of events, played by either server: `Plain`, which computes each reply from its entries, and `Core`, which keeps
//! tables beside them; and a core's history as such a script. The tests of `da_core` compare what both give out, and
//! `da_core_bench` is timed.
//!
//! The servers are made, and let go, here alone: whoever plays a script gets bytes, or looks at a server that is lent. So
//! what plays a script owns no server, and the proof that it is safe is short.
#![tactic(auto)]

mod again;
mod history;
mod looking;
mod script;
mod server;

pub use again::replies_of_core_again;
pub use history::script_of;
pub use looking::{Look, looks_right};
pub use script::{replies, replies_of_core, replies_of_plain, reply_to};
pub use server::Server;
