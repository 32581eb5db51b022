// Which inputs make no entry.

ghost use Rattle.std.specs.Prelude.{◌≡◌, ◌<◌, ◌^◌, ◌-◌, ℕ, length};
ghost use Rattle.da_base.specs.Words.{Bytes};
ghost use Rattle.da_msgs.specs.declared.kinds.ConnKind.{ConnKind};
ghost use Rattle.da_play.specs.Legal.{late_from};
ghost use Rattle.da_play.specs.Play.{late_refusal, unless, input_refusal};
ghost use Rattle.da_play.specs.declared.input.Input.TheVariants.{Opened};

use da_play::{Input, Refused};
use da_settings::Settings;
use da_tables::{Tables, first_waiting, is_running_in};

/// The moment from which the query of this number is late, where it was taken.
fn moment_of_lateness(settings: &Settings, tables: &Tables, query: u32) -> Option<u64>
    ensures { result ≡ late_from settings.now tables.now query }
{
    let query_row = tables.query(query)?;
    let taken = query_row.taken?;
    Some(taken.saturating_add(settings.query_limit))
}

fn late_refusal(moment: u64, query: u32, due: Option<u64>) -> Option<Refused>
    ensures { result ≡ late_refusal moment query due }
{
    match due {
        Some(due) if due > moment => Some(Refused::NotLate { query, due }),
        _ => None,
    }
}

fn unless(fine: bool, refused: Refused) -> Option<Refused>
    ensures { result ≡ unless fine refused }
{
    if fine { None } else { Some(refused) }
}

fn open_refusal(settings: &Settings, tables: &Tables) -> Option<Refused>
    requires { length tables.now.connections < 2 ^ 32 - 1 }
    ensures { (kind : ConnKind) (random : Bytes) (moment : ℕ) → result ≡ input_refusal settings.now tables.now moment (Opened kind random) }
{
    let count = tables.open_count() as u32;
    unless(count < settings.connections, Refused::ConnLimit { count })
}

/// Why the input may not be an entry after these tables, at this moment. `None` where it may.
pub(crate) fn input_refusal(
    settings: &Settings,
    tables: &Tables,
    moment: u64,
    input: &Input,
) -> Option<Refused>
    requires connections { length tables.now.connections < 2 ^ 32 - 1 }
    requires queries { length tables.now.queries < 2 ^ 32 - 1 }
    ensures { result ≡ input_refusal settings.now tables.now moment input.now }
{
    match input {
        Input::Opened { .. } => open_refusal(settings, tables),
        Input::Line { conn, .. } | Input::Broken { conn } | Input::Gone { conn } => {
            unless(tables.is_open(*conn), Refused::NoConn { conn: *conn })
        }
        Input::Take => unless(first_waiting(tables) > 0, Refused::NothingWaits),
        Input::Answered { query, .. } => unless(
            is_running_in(tables, *query),
            Refused::NotTaken { query: *query },
        ),
        Input::Late { query } => {
            if is_running_in(tables, *query) {
                late_refusal(moment, *query, moment_of_lateness(settings, tables, *query))
            } else {
                Some(Refused::NotTaken { query: *query })
            }
        }
        Input::Tick => None,
    }
}
