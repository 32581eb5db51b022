//! One request by itself: what its client said, the names and the mechanism, the stage at which it stands, its decision, and
//! when its reply is due. `Request::stage` is `request_stage` of `specs/Requests.antt`, which looks at the request and the
//! settings alone; `opening_of` and `after_chain` are its two halves, before and after the chain of databases, for whoever
//! has the chain from elsewhere.
#![tactic(auto)]

mod attempts;
mod copies;
mod failures;
mod limits;
mod mechanisms;
mod messages;
mod names;
mod numbered;
mod openings;
mod request;
mod stages;
mod uses;

pub use attempts::{Attempt, after_chain, attempt_stage};
pub use copies::{answer_copy, copy_text};
pub use numbered::{row, row_index};
pub use openings::{Opening, opening_of, vars_for};
pub use request::{Answers, Body, Grant, Request, add_answer, add_late_answer, new_request};
pub use stages::{Decision, Question, Stage, attempt_by, lookup_stage};
pub use uses::{query_password, use_comparison};
