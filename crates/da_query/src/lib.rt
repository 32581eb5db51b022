//! The lines between the service and its workers: a query, and the answer to it. A line is read as the query or answer
//! that it spells, and what is printed is read again; `laws` says so in terms of the lines.
#![tactic(auto)]

mod answers;
mod laws;
mod left;
mod printing;
mod queries;
mod speaker;

pub use answers::{fit, read_answer, read_fields, read_script_answer};
pub use laws::{
    a_line_answers_a_query_or_is_malformed, a_query_line_is_read_as_it_spells,
    a_query_line_spells_one_query, a_script_answer_is_read_as_it_spells,
    a_script_line_spells_one_answer, a_worker_answer_is_read_as_it_spells,
    a_worker_line_spells_one_answer,
};
pub use printing::{print, print_answer};
pub use queries::read_query;
