//! What the chains of password and user databases share: the answers so far by database, the rule that follows of an
//! outcome, and fields whose values are templates. Fields of a success are merged as `merge` of da_fields says.
#![tactic(auto)]

mod answers;
mod templates;

pub use answers::{answer_fields, answer_from, rule_for};
pub use templates::{are_templates, expand_fields, merge_expanded};
