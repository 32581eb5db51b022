// A query to check a password, which a program of the settings does.

ghost use Rattle.std.specs.Prelude.{◌≡◌};
ghost use Rattle.da_workers.specs.Exchanges.{AsksProgram, password_of, program_of};

use da_child::check;
use da_fields::{Answer, Query};
use da_outside::Runner;
use da_settings::Settings;
use std::alloc::{AllocError, Global};

/// The program of the password database with this number. A database that isn't there has an empty one.
fn program_of(settings: &Settings, db: u32) -> &[u8]
    ensures { result.now ≡ program_of settings.now db }
{
    let databases = settings.passdbs();
    if db > 0 && db as usize <= databases.len() {
        databases[db as usize - 1].args.bytes()
    } else {
        &[]
    }
}

fn password_of(query: &Query) -> &[u8]
    ensures { result.now ≡ password_of query.now }
{
    match &query.password {
        Some(password) => password.bytes(),
        None => &[],
    }
}

/// Lets the program of the query's database check the user's password.
pub(crate) fn ask_program<U: Runner>(
    alloc: Global,
    settings: &Settings,
    runner: &mut U,
    query: &Query,
) -> Result<Answer, AllocError>
    ensures { AsksProgram settings.now query.now (U.state runner.old) (U.state runner.new) result }
{
    let program = program_of(settings, query.db);
    check(
        alloc,
        runner,
        program,
        query.user.bytes(),
        password_of(query),
    )
}
