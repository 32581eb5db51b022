// The link of a worker: started where there is none, and handed back where it is of no more use.

ghost use Rattle.std.specs.Prelude.{◌≡◌, ◌≤◌, None, IfOk, IsErrOf, option_map};
ghost use Rattle.da_outside.specs.Causes.{HasGetCause};
ghost use Rattle.da_outside.specs.Past.{Recalls};
ghost use Rattle.da_outside.specs.Spawner.{IsFresh, start_kept};
ghost use Rattle.da_workers.specs.Exchanges.{AsksOver, AsksWorker, IsPutAway, is_spoilt, links_of};
ghost use Rattle.da_workers.specs.Working.{HandsIn};

use crate::asking::ask;
use da_fields::{Answer, Query, Why};
use da_outside::{GetFault, Link, Spawner};
use da_settings::Settings;
use std::alloc::{AllocError, Global};

/// The worker's command.
fn command_of(alloc: Global, settings: &Settings) -> Result<Vec<Vec<u8>>, AllocError> {
    let mut command = Vec::new(alloc);
    for word in settings.worker_command.all() {
        command.push(word.bytes().to_vec(alloc)?)?;
    }
    Ok(command)
}

fn start<P: Spawner>(
    alloc: Global,
    settings: &Settings,
    spawner: &mut P,
) -> Result<P::Link, GetFault>
    ensures never_long { IsErrOf result GetFault.Long → ⊥ }
    ensures fresh { IfOk result (λ link. IsFresh (P.Link.state link)) }
    ensures past { Recalls (P.state spawner.old).past (P.state spawner.new).past (start_kept result) }
    ensures cause { HasGetCause (P.state spawner.old).faults (P.state spawner.new).faults result }
{
    let command = command_of(alloc, settings)?;
    spawner.start(alloc, &command)
}

/// Whether the link is of no more use after this answer.
fn is_spoilt(answer: &Result<Answer, AllocError>) -> bool
    ensures { result ≡ is_spoilt answer.now }
{
    match answer {
        Ok(Answer::Internal(why)) => *why == Why::Died || *why == Why::Malformed,
        Ok(_) => false,
        Err(_) => true,
    }
}

/// Hands the link back where it is of no more use, and keeps it otherwise.
fn put_away<P: Spawner>(spawner: &mut P, link: P::Link, spoilt: bool) -> Option<P::Link>
    ensures { IsPutAway spoilt (P.Link.state link) (P.state spawner.old) (P.state spawner.new) (option_map P.Link.state result) }
{
    if spoilt {
        spawner.finish(link);
        return None;
    }
    Some(link)
}

/// Hands the link back, if there is one.
pub(crate) fn hand_in<P: Spawner>(spawner: &mut P, link: Option<P::Link>)
    ensures { HandsIn (option_map P.Link.state link) (P.state spawner.old) (P.state spawner.new) }
{
    if let Some(link) = link {
        spawner.finish(link);
    }
}

/// Asks a query over this link, and puts the link away.
fn ask_over<P: Spawner>(
    alloc: Global,
    spawner: &mut P,
    mut link: P::Link,
    query: &Query,
) -> (Option<P::Link>, Result<Answer, AllocError>)
    ensures { AsksOver query.now (P.Link.state link) (P.state spawner.old)
        (links_of (P.state spawner.new) (option_map P.Link.state result.0)) result.1 }
{
    let answer = ask(alloc, &mut link, query);
    let link = put_away(spawner, link, is_spoilt(&answer));
    (link, answer)
}

/// Asks a query over the worker's link, which is started where there is none.
pub(crate) fn ask_worker<P: Spawner>(
    alloc: Global,
    settings: &Settings,
    spawner: &mut P,
    link: Option<P::Link>,
    query: &Query,
) -> (Option<P::Link>, Result<Answer, AllocError>)
    ensures { AsksWorker query.now
        (links_of (P.state spawner.old) (option_map P.Link.state link))
        (links_of (P.state spawner.new) (option_map P.Link.state result.0))
        result.1 }
{
    if let Some(link) = link {
        return ask_over(alloc, spawner, link, query);
    }
    match start(alloc, settings, spawner) {
        Ok(link) => ask_over(alloc, spawner, link, query),
        Err(GetFault::Failed) => (None, Ok(Answer::Internal(Why::Died))),
        Err(GetFault::NoMemory) => (None, Err(AllocError)),
        Err(GetFault::Long) => unreachable!(),
    }
}
