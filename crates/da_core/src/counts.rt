// What is counted in the tables.

ghost use Rattle.std.specs.List.{list_any};
ghost use Rattle.std.specs.Prelude.{◌≡◌, length, not};
ghost use Rattle.da_base.specs.Words.{count_where};
ghost use Rattle.da_play.specs.Legal.{has_met};
ghost use Rattle.da_tables.specs.Queries.{waiting, running};
ghost use Rattle.da_tables.specs.Tables.{is_client};

use da_settings::Goal;
use da_tables::{Connection, Tables, is_running, is_waiting};

/// How many queries wait.
pub(crate) fn waiting_count(tables: &Tables) -> usize
    ensures { result ≡ length (waiting tables.now) }
{
    let mut count = 0;
    for query_row in tables.queries.all() {
        if is_waiting(tables, query_row) {
            count += 1;
        }
    }
    count
}

/// How many queries run.
pub(crate) fn running_count(tables: &Tables) -> usize
    ensures { result ≡ length (running tables.now) }
{
    let mut count = 0;
    for query_row in tables.queries.all() {
        if is_running(query_row) {
            count += 1;
        }
    }
    count
}

fn client_count(connections: &[Connection]) -> usize
    ensures { result ≡ count_where (λ c. is_client c.kind) connections.now }
{
    connections
        .iter()
        .filter(|connection| connection.is_of_client())
        .count()
}

fn master_count(connections: &[Connection]) -> usize
    ensures { result ≡ count_where (λ c. not (is_client c.kind)) connections.now }
{
    connections
        .iter()
        .filter(|connection| !connection.is_of_client())
        .count()
}

fn some_is_open(connections: &[Connection]) -> bool
    ensures { result ≡ list_any (λ c. c.is_open) connections.now }
{
    connections.iter().any(|connection| connection.is_open)
}

/// Whether so many connections of each kind were opened, and none is open.
pub(crate) fn has_met(goal: &Goal, connections: &[Connection]) -> bool
    ensures { result ≡ has_met goal.now connections.now }
{
    goal.clients as usize <= client_count(connections)
        && goal.masters as usize <= master_count(connections)
        && !some_is_open(connections)
}
