//! The tables of the server: connections, requests, queries and the keys of the cache, what they say, and the changes of
//! one row. Each change is its definition in `specs/Tables.antt`, `specs/Connections.antt` or `specs/Queries.antt`.
#![tactic(auto)]

mod connections;
mod copies;
mod input_effect;
mod keys;
mod numbers;
mod queries;
mod requests;
mod tables;

pub use connections::{Connection, Connections, count_open, number_with_pid, some_has_pid};
pub use input_effect::InputEffect;
pub use keys::Keys;
pub use numbers::Numbers;
pub use queries::{
    Comparisons, Queries, QueryRow, add_query, first_waiting, is_running, is_running_in,
    is_waiting, put_in_row, query_with, use_row_again,
};
pub use requests::{
    Requests, answer_in_row, is_undecided_in, late_answer_in_row, number_called, pending_count,
    some_is_granted_for,
};
pub use tables::Tables;
