//! What databases are asked and what they answer: texts, fields, queries and answers, and what a mechanism makes of a
//! client's messages. A list of fields is a list of pairs whose keys are distinct, in the order in which they came.
#![tactic(auto)]

mod answer;
mod fields;
mod merging;
mod outcome;
mod said;
mod text;

pub use answer::{Answer, Query, QueryKind, Why};
pub use fields::Fields;
pub use merging::{merge, userdb_part, visible};
pub use outcome::{Outcome, Rule};
pub use said::Said;
pub use text::Text;
