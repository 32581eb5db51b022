// The threads of the service, over a port.

ghost use Rattle.std.specs.Prelude.{◌≡◌};
ghost use Rattle.da_finish.specs.Printed.{HasEnded};
ghost use Rattle.da_turn.specs.Seats.{IsFree, IsOf, seen};

use da_msgs::ConnKind;
use da_outside::{Clock, Crew, Listen, Pause, Rand, Spawner};
use da_port::Seat;
use da_session::serve_ticks;
use da_settings::Goal;
use da_threads::{Shared, join_all, take_in};
use std::sync::Wait;
use std::thread;
use std::thread::{Scope, Threads};

// Lets time pass until the history has ended.
fn tick<'s, R: Threads + Wait + Sync, C: Clock + Sync, Z: Pause + Sync>(
    shared: Shared<'s, R, C, Z>,
    mut seat: Seat,
) -> Seat
    requires { IsOf shared.port.now seat × IsFree seat }
    ensures own { IsOf shared.entry.port.now result × IsFree result }
    ensures ended { HasEnded shared.entry.port.now.fixed (seen result) }
{
    let _ = serve_ticks(
        shared.rt,
        shared.port,
        &mut seat,
        shared.clock,
        shared.pause,
    );
    seat
}

// The masters' accepting loop beside the clients'.
fn serve_conns<
    's,
    R: Threads + Wait + Sync,
    C: Clock + Sync,
    Z: Pause + Sync,
    L: Listen + Send,
    G: Rand + Send + Drop,
>(
    shared: Shared<'s, R, C, Z>,
    seat: Seat,
    other: Seat,
    goal: Option<Goal>,
    clients: &mut L,
    masters: &mut L,
    rand: &mut G,
) -> (Seat, Seat)
where
    L::Source: Send + Drop,
    L::Sink: Send + Drop,
    requires { (IsOf shared.port.now seat × IsFree seat) × (IsOf shared.port.now other × IsFree other) }
    ensures { (IsOf shared.entry.port.now result.0 × IsFree result.0)
        × (IsOf shared.entry.port.now result.1 × IsFree result.1) }
{
    let client_limit = goal.map(|goal| goal.clients);
    let master_limit = goal.map(|goal| goal.masters);
    let client_rand = rand.fork();
    let master_rand = rand.fork();
    thread::join(
        shared.rt,
        || -> Seat
            requires { IsOf shared.port.now other × IsFree other }
            ensures { IsOf shared.entry.port.now result × IsFree result }
        {
            let mine = other;
            let rand = master_rand;
            Shared { ..shared }.accept_conns(mine, ConnKind::Master, masters, master_limit, rand)
        },
        || -> Seat
            requires { IsOf shared.port.now seat × IsFree seat }
            ensures { IsOf shared.entry.port.now result × IsFree result }
        {
            let mine = seat;
            let rand = client_rand;
            Shared { ..shared }.accept_conns(mine, ConnKind::Client, clients, client_limit, rand)
        },
    )
}

// The clock beside the accepting loops. Where no thread can be made for it, it comes last, and ends at once.
fn serve_sockets<
    's,
    R: Threads + Wait + Sync,
    C: Clock + Sync,
    Z: Pause + Sync,
    L: Listen + Send,
    G: Rand + Send + Drop,
>(
    shared: Shared<'s, R, C, Z>,
    mut seat: Seat,
    goal: Option<Goal>,
    clients: &mut L,
    masters: &mut L,
    rand: &mut G,
) -> Seat
where
    L::Source: Send + Drop,
    L::Sink: Send + Drop,
    requires { IsOf shared.port.now seat × IsFree seat }
    ensures own { IsOf shared.entry.port.now result × IsFree result }
    ensures ended { HasEnded shared.entry.port.now.fixed (seen result) }
{
    let ticks = shared.port.split(&mut seat);
    let other = shared.port.split(&mut seat);
    let (mut ended, (seat, other)) = thread::join(
        shared.rt,
        || -> Seat
            requires { IsOf shared.port.now ticks × IsFree ticks }
            ensures { (IsOf shared.entry.port.now result × IsFree result)
                × HasEnded shared.entry.port.now.fixed (seen result) }
        {
            let mine = ticks;
            tick(Shared { ..shared }, mine)
        },
        || -> (Seat, Seat)
            requires { (IsOf shared.port.now seat × IsFree seat)
                × (IsOf shared.port.now other × IsFree other) }
            ensures { (IsOf shared.entry.port.now result.0 × IsFree result.0)
                × (IsOf shared.entry.port.now result.1 × IsFree result.1) }
        {
            let mine = seat;
            let theirs = other;
            serve_conns(
                Shared { ..shared },
                mine,
                theirs,
                goal,
                clients,
                masters,
                rand,
            )
        },
    );
    take_in(shared.port, &mut ended, seat);
    take_in(shared.port, &mut ended, other);
    ended
}

// The workers, and all else beside them.
fn serve_in<
    's,
    R: Threads + Wait + Sync,
    C: Clock + Sync,
    Z: Pause + Sync,
    E,
    L: Listen + Send,
    W: Crew,
    G: Rand + Send + Drop,
>(
    shared: Shared<'s, R, C, Z>,
    scope: &Scope<'s, E>,
    mut seat: Seat,
    goal: Option<Goal>,
    clients: &mut L,
    masters: &mut L,
    crew: &mut W,
    rand: &mut G,
) -> Seat
where
    L::Source: Send + Drop,
    L::Sink: Send + Drop,
    W::Spawner: Send + Drop + 's,
    <W::Spawner as Spawner>::Link: Send + Drop,
    W::Runner: Send + Drop + 's,
    requires own { IsOf shared.port.now seat × IsFree seat }
    requires terms { shared.settings.now ≡ shared.port.now.fixed.settings }
    ensures own { IsOf shared.entry.port.now result × IsFree result }
    ensures ended { HasEnded shared.entry.port.now.fixed (seen result) }
{
    let mut workers = Vec::new(shared.alloc);
    shared.start_workers(scope, &mut seat, &mut workers, crew);
    let mut seat = serve_sockets(shared, seat, goal, clients, masters, rand);
    join_all(shared.rt, shared.port, &mut seat, workers);
    seat
}

// The service over a port, until its history has ended and all threads are joined.
pub(crate) fn serve_port<
    's,
    R: Threads + Wait + Sync,
    C: Clock + Sync,
    Z: Pause + Sync,
    L: Listen + Send,
    W: Crew,
    G: Rand + Send + Drop,
>(
    shared: Shared<'s, R, C, Z>,
    seat: Seat,
    goal: Option<Goal>,
    clients: &mut L,
    masters: &mut L,
    crew: &mut W,
    rand: &mut G,
) -> Seat
where
    L::Source: Send + Drop,
    L::Sink: Send + Drop,
    W::Spawner: Send + Drop,
    <W::Spawner as Spawner>::Link: Send + Drop,
    W::Runner: Send + Drop,
    requires own { IsOf shared.port.now seat × IsFree seat }
    requires terms { shared.settings.now ≡ shared.port.now.fixed.settings }
    ensures own { IsOf shared.entry.port.now result × IsFree result }
    ensures ended { HasEnded shared.entry.port.now.fixed (seen result) }
{
    thread::scope(
        thread::scope_env(),
        shared.rt,
        |scope| -> Seat
            requires { (IsOf shared.port.now seat × IsFree seat)
                × (shared.settings.now ≡ shared.port.now.fixed.settings) }
            ensures { (IsOf shared.entry.port.now result × IsFree result)
                × HasEnded shared.entry.port.now.fixed (seen result) }
        {
            let mine = seat;
            serve_in(
                Shared { ..shared },
                scope,
                mine,
                goal,
                clients,
                masters,
                crew,
                rand,
            )
        },
    )
}
