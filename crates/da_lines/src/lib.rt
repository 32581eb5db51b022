//! What a line of a connection does to the tables: `line` is `line_on` of `specs/Lines.antt`, for clients and for masters,
//! with the grants of `specs/Grants.antt`.
#![tactic(auto)]

mod grants;
mod lines;
mod logins;

pub use grants::{granted, login_grant};
pub use lines::{LineMeaning, line};
