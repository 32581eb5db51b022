// The command `serve`.

ghost use Rattle.std.specs.Prelude.{◌≡◌, map, string_bytes};
ghost use Rattle.da_serve.specs.Bridges.{Binds, BindsBoth};
ghost use Rattle.da_finish.specs.Printed.{HasEnded};
ghost use Rattle.da_serve.specs.Serving.{RunsServe, ServesNew, ServesUnder};
ghost use Rattle.da_turn.specs.Seats.{IsFree, IsOf, seen};

use crate::service::serve_port;
use da_command::{Status, read_settings, task_of_serve};
use da_finish::finish_serve;
use da_outside::{Clock, Crew, Files, GetFault, Listen, Pause, Rand, Sink, Spawner};
use da_port::Port;
use da_settings::{Goal, Settings};
use da_threads::Shared;
use std::alloc::Global;
use std::sync::Wait;
use std::thread::Threads;

fn bind<L: Listen>(alloc: Global, listen: &mut L, path: &[u8]) -> Result<(), Status>
    ensures { Binds (L.state listen.old) (L.state listen.new) result }
{
    match listen.bind(alloc, path) {
        Ok(()) => Ok(()),
        Err(GetFault::Failed) => Err(Status::NoListen),
        Err(GetFault::NoMemory) => Err(Status::NoMemory),
        Err(GetFault::Long) => unreachable!(),
    }
}

// Binds the clients' socket, and then the masters'.
fn bind_both<L: Listen>(
    alloc: Global,
    settings: &Settings,
    clients: &mut L,
    masters: &mut L,
) -> Result<(), Status>
    ensures { BindsBoth (L.state clients.old) (L.state clients.new)
        (L.state masters.old) (L.state masters.new) result }
{
    bind(alloc, clients, settings.client_socket.bytes())?;
    bind(alloc, masters, settings.master_socket.bytes())
}

// Serves over a new port with these settings, and prints its history.
fn serve_new<
    R: Threads + Wait + Sync,
    L: Listen + Send,
    W: Crew,
    C: Clock + Sync,
    G: Rand + Send + Drop,
    Z: Pause + Sync,
    K: Sink,
>(
    rt: &R,
    alloc: Global,
    settings: Settings,
    goal: Option<Goal>,
    clients: &mut L,
    masters: &mut L,
    crew: &mut W,
    clock: &C,
    rand: &mut G,
    pause: &Z,
    output: &mut K,
) -> Status
where
    L::Source: Send + Drop,
    L::Sink: Send + Drop,
    W::Spawner: Send + Drop,
    <W::Spawner as Spawner>::Link: Send + Drop,
    W::Runner: Send + Drop,
    ensures { ServesNew settings goal (K.state output.old) (K.state output.new) result }
{
    let Ok(terms) = settings.copy(alloc) else {
        return Status::NoMemory;
    };
    let Ok((port, seat)) = Port::new(alloc, settings, goal) else {
        return Status::NoMemory;
    };
    let shared = Shared {
        rt,
        alloc,
        port: &port,
        settings: &terms,
        clock,
        pause,
    };
    let seat = serve_port(shared, seat, goal, clients, masters, crew, rand);
    finish_serve(rt, alloc, port, seat, output)
}

// Serves with these settings.
fn serve_with<
    R: Threads + Wait + Sync,
    L: Listen + Send,
    W: Crew,
    C: Clock + Sync,
    G: Rand + Send + Drop,
    Z: Pause + Sync,
    K: Sink,
>(
    rt: &R,
    alloc: Global,
    settings: Settings,
    goal: Option<Goal>,
    clients: &mut L,
    masters: &mut L,
    crew: &mut W,
    clock: &C,
    rand: &mut G,
    pause: &Z,
    output: &mut K,
) -> Status
where
    L::Source: Send + Drop,
    L::Sink: Send + Drop,
    W::Spawner: Send + Drop,
    <W::Spawner as Spawner>::Link: Send + Drop,
    W::Runner: Send + Drop,
    ensures { ServesUnder settings goal (L.state clients.old) (L.state clients.new)
        (L.state masters.old) (L.state masters.new) (K.state output.old) (K.state output.new)
        result }
{
    match bind_both(alloc, &settings, clients, masters) {
        Ok(()) => serve_new(
            rt, alloc, settings, goal, clients, masters, crew, clock, rand, pause, output,
        ),
        Err(status) => status,
    }
}

/// `serve PATH` and `serve PATH N M`: reads the settings from the file at PATH, binds both sockets, and serves connections
/// until so many clients and masters have come and gone, or the history is full; then it prints the script of its history.
/// Without a goal it serves until the history is full. Each part that moves to a thread is Send, and each part that threads
/// share is Sync.
pub fn run_serve<
    R: Threads + Wait + Sync,
    F: Files,
    L: Listen + Send,
    W: Crew,
    C: Clock + Sync,
    G: Rand + Send + Drop,
    Z: Pause + Sync,
    K: Sink,
>(
    rt: &R,
    alloc: Global,
    words: &[String],
    files: &mut F,
    clients: &mut L,
    masters: &mut L,
    crew: &mut W,
    clock: &C,
    rand: &mut G,
    pause: &Z,
    output: &mut K,
) -> Status
where
    L::Source: Send + Drop,
    L::Sink: Send + Drop,
    W::Spawner: Send + Drop,
    <W::Spawner as Spawner>::Link: Send + Drop,
    W::Runner: Send + Drop,
    ensures { RunsServe (map string_bytes words.now)
        (record {
          files = F.state files.old;
          clients = L.state clients.old;
          masters = L.state masters.old;
          output = K.state output.old;
        })
        (record {
          files = F.state files.new;
          clients = L.state clients.new;
          masters = L.state masters.new;
          output = K.state output.new;
        })
        result }
{
    let Some((path, goal)) = task_of_serve(words) else {
        return Status::Usage;
    };
    match read_settings(alloc, path, files) {
        Ok(settings) => serve_with(
            rt, alloc, settings, goal, clients, masters, crew, clock, rand, pause, output,
        ),
        Err(status) => status,
    }
}
