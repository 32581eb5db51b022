//! User names, filters of user names, and templates with variables.
#![tactic(auto)]

mod filters;
mod names;
mod templates;
mod variables;

pub use filters::filter_matches;
pub use names::{normal, split_master};
pub use templates::{expand, template_ok};
pub use variables::{VarText, Vars};
