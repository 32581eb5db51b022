// One exchange of a worker.

ghost use Rattle.std.specs.Prelude.{◌≡◌, option_map};
ghost use Rattle.da_workers.specs.Exchanges.{Exchanges, tools_of};

use crate::link::ask_worker;
use crate::program::ask_program;
use da_fields::{Answer, Query, QueryKind};
use da_outside::{Runner, Spawner};
use da_settings::Settings;
use std::alloc::{AllocError, Global};

/// Asks a query to check a password of its program, and any other of a worker over its link.
pub(crate) fn exchange<P: Spawner, U: Runner>(
    alloc: Global,
    settings: &Settings,
    spawner: &mut P,
    runner: &mut U,
    link: Option<P::Link>,
    query: &Query,
) -> (Option<P::Link>, Result<Answer, AllocError>)
    ensures { Exchanges settings.now query.now
        (tools_of (P.state spawner.old) (option_map P.Link.state link) (U.state runner.old))
        (tools_of (P.state spawner.new) (option_map P.Link.state result.0) (U.state runner.new))
        result.1 }
{
    match query.kind {
        QueryKind::Check => (link, ask_program(alloc, settings, runner, query)),
        QueryKind::Pass | QueryKind::User => ask_worker(alloc, settings, spawner, link, query),
    }
}
