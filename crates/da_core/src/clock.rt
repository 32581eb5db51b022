// What is due as time passes: replies that are held back, the limits of requests, and queries that run.

ghost use Rattle.std.specs.List.{list_any};
ghost use Rattle.std.specs.Prelude.{◌≡◌, ◌<◌, ◌^◌, ◌-◌, length, map, is_some, IfOk, nat_le};
ghost use Rattle.da_base.specs.Words.{number_where, passes_option};
ghost use Rattle.da_core.specs.Clock.{first_late, is_late};
ghost use Rattle.da_core.specs.Bridges.{is_reached, next_due};
ghost use Rattle.da_tables.specs.Queries.{is_running};

use da_request::Request;
use da_settings::Settings;
use da_tables::{QueryRow, is_running};
use std::alloc::{AllocError, Global};

/// What is due at a moment.
#[derive(Clone, Copy, Debug, Drop, PartialEq, Eq)]
pub struct Due {
    /// A reply that was held back is due, or a client's request that isn't decided has reached its limit.
    pub reply: bool,
    /// The first query that has run as long as it may.
    pub query: Option<u32>,
}

fn next_due(
    alloc: Global,
    settings: &Settings,
    request: &Request,
) -> Result<Option<u64>, AllocError>
    ensures { IfOk result (λ due. due ≡ next_due settings.now request.now) }
{
    if request.has_limit() {
        return Ok(Some(request.limit_moment(settings)));
    }
    if !request.is_pending() {
        return Ok(None);
    }
    request.due_moment(alloc, settings)
}

/// When the reply to each request is due as time passes: where it is held back, or its limit is still to come.
pub(crate) fn next_dues(
    alloc: Global,
    settings: &Settings,
    requests: &[Request],
) -> Result<Vec<Option<u64>>, AllocError>
    ensures { IfOk result (λ dues. dues.items ≡ map (next_due settings.now) requests.now) }
{
    let mut dues = Vec::new(alloc);
    for request in requests {
        dues.push(next_due(alloc, settings, request)?)?;
    }
    Ok(dues)
}

fn is_reached(due: &Option<u64>, moment: u64) -> bool
    ensures { result ≡ is_reached moment due.now }
{
    match due {
        Some(due) => *due <= moment,
        None => false,
    }
}

/// Whether one of these moments is reached.
pub(crate) fn some_is_reached(dues: &[Option<u64>], moment: u64) -> bool
    ensures { result ≡ list_any (is_reached moment) dues.now }
{
    dues.iter().any(|due| is_reached(due, moment))
}

/// Whether there is one of these moments.
pub(crate) fn some_is_set(dues: &[Option<u64>]) -> bool
    ensures { result ≡ list_any is_some dues.now }
{
    dues.iter().any(|due| due.is_some())
}

/// Whether a query runs.
pub(crate) fn some_runs(queries: &[QueryRow]) -> bool
    ensures { result ≡ list_any is_running queries.now }
{
    queries.iter().any(|query_row| is_running(query_row))
}

fn is_late(settings: &Settings, moment: u64, query_row: &QueryRow) -> bool
    ensures { result ≡ is_late settings.now moment query_row.now }
{
    is_running(query_row)
        && match query_row.taken {
            Some(taken) => taken.saturating_add(settings.query_limit) <= moment,
            None => false,
        }
}

fn late_number(settings: &Settings, moment: u64, queries: &[QueryRow]) -> u32
    requires { length queries.now < 2 ^ 32 - 1 }
    ensures { result ≡ number_where (is_late settings.now moment) queries.now }
{
    let mut before: u32 = 0;
    for query_row in queries {
        if is_late(settings, moment, query_row) {
            return before + 1;
        }
        before += 1;
    }
    0
}

/// The number of the first query that has run as long as it may.
pub(crate) fn first_late(settings: &Settings, moment: u64, queries: &[QueryRow]) -> Option<u32>
    requires { length queries.now < 2 ^ 32 - 1 }
    ensures { result ≡ first_late settings.now moment queries.now }
{
    match late_number(settings, moment, queries) {
        0 => None,
        number => Some(number),
    }
}
