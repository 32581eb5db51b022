// Threads on one port.

ghost use Rattle.std.specs.Prelude.{◌≡◌, All};
ghost use Rattle.da_turn.specs.Seats.{IsFree, IsOf};

use crate::{replay, ticks, waits};
use da_core::{Core, Goal};
use da_port::{Port, Seat};
use std::alloc::Global;
use std::process::Abort;
use std::sync::Wait;
use std::thread;
use std::thread::Threads;

/// What a thread does.
#[derive(Clone, Copy, Drop)]
pub enum Role {
    /// Sends lines and records ticks in turn.
    Ticker,
    /// Logs in, and waits for the replies.
    Asker,
    /// Waits for work of the clock, and does it.
    Clock,
    /// Waits for queries, and answers them.
    Server,
    /// Does what it likes as a client.
    Talker,
    /// Answers queries.
    Worker,
}

#[derive(Drop)]
struct Job {
    role: Role,
    thread: u8,
    seat: Seat,
}

/// A seat that comes back, and what its thread was told.
#[derive(Drop)]
struct Done {
    seat: Seat,
    told: Vec<u32>,
}

// A port that serves by the settings of a text, and its first seat.
fn port_of<R: Abort>(rt: &R, alloc: Global, settings: &[u8], goal: Option<Goal>) -> (Port, Seat)
    ensures { IsOf result.0 result.1 × IsFree result.1 }
{
    let settings = da_config::read(alloc, settings).expect(rt, "settings");
    Port::new(alloc, settings, goal).expect(rt, "memory")
}

fn play<R: Wait + Abort>(
    rt: &R,
    alloc: Global,
    port: &Port,
    seat: &mut Seat,
    role: Role,
    thread: u8,
    told: &mut Vec<u32>,
)
    requires { IsOf port.now seat.old × IsFree seat.old }
    ensures { IsOf port.now seat.new × IsFree seat.new }
{
    match role {
        Role::Ticker => ticks::tick(rt, alloc, port, seat, thread),
        Role::Asker => waits::ask(rt, alloc, port, seat, told),
        Role::Clock => waits::keep_time(rt, port, seat, told),
        Role::Server => waits::serve(rt, port, seat, told),
        Role::Talker => replay::talk(rt, alloc, port, seat, thread, told),
        Role::Worker => replay::work(rt, port, seat, told),
    }
}

fn work<R: Wait + Abort>(rt: &R, alloc: Global, port: &Port, job: Job) -> Done
    requires { IsOf port.now job.seat × IsFree job.seat }
    ensures { IsOf port.now result.seat × IsFree result.seat }
{
    let Job {
        role,
        thread,
        mut seat,
    } = job;
    let mut told = Vec::new(alloc);
    play(rt, alloc, port, &mut seat, role, thread, &mut told);
    Done { seat, told }
}

fn jobs<R: Abort>(rt: &R, alloc: Global, port: &Port, seat: &mut Seat, roles: &[Role]) -> Vec<Job>
    requires { IsOf port.now seat.old × IsFree seat.old }
    ensures seat { IsOf port.now seat.new × IsFree seat.new }
    ensures jobs { All (λ j. IsOf port.now j.seat × IsFree j.seat) result.items }
{
    let mut jobs = Vec::new(alloc);
    let mut thread = 0u8;
    for role in roles {
        let job = Job {
            role: *role,
            thread,
            seat: port.split(seat),
        };
        jobs.push(job).expect(rt, "memory");
        thread = thread.saturating_add(1);
    }
    jobs
}

// Joins the seats that came back, and gives what each thread was told.
fn join_all<R: Abort>(
    rt: &R,
    alloc: Global,
    port: &Port,
    seat: &mut Seat,
    mut dones: Vec<Done>,
) -> Vec<Vec<u32>>
    requires seat { IsOf port.now seat.old × IsFree seat.old }
    requires dones { All (λ d. IsOf port.now d.seat × IsFree d.seat) dones.items }
    ensures { IsOf port.now seat.new × IsFree seat.new }
{
    let mut all = Vec::new(alloc);
    while let Some(done) = dones.pop() {
        port.join(seat, done.seat);
        all.push(done.told).expect(rt, "memory");
    }
    all.reverse();
    all
}

// Lets a thread play each of these roles, and gives what each was told.
fn play_all<R: Threads + Wait + Abort + Sync>(
    rt: &R,
    alloc: Global,
    port: &Port,
    seat: &mut Seat,
    roles: &[Role],
) -> Vec<Vec<u32>>
    requires { IsOf port.now seat.old × IsFree seat.old }
    ensures { IsOf port.now seat.new × IsFree seat.new }
{
    let jobs = jobs(rt, alloc, port, seat, roles);
    let dones = thread::map_vec(
        rt,
        jobs,
        &|job: Job| -> Done
            requires { IsOf port.now job.seat × IsFree job.seat }
            ensures { IsOf port.entry.now result.seat × IsFree result.seat }
        { work(rt, alloc, port, job) },
    )
    .expect(rt, "memory");
    join_all(rt, alloc, port, seat, dones)
}

/// What is looked for after a run.
#[derive(Clone, Copy, Drop)]
pub enum Look {
    /// The entries stand in order.
    Order,
    /// Whoever waited was woken.
    Woken,
    /// The history is played again.
    Again,
}

/// A run in which a thread plays each of these roles, and what is looked for then.
#[derive(Clone, Copy, Drop)]
pub struct Scene<'a> {
    pub settings: &'a [u8],
    pub goal: Option<Goal>,
    pub roles: &'a [Role],
    pub look: Look,
}

// The core after a run, and what each thread was told: numbers of connections and queries, a 1 for a line or a tick, and 1 or
// 0 for whether a connection was still open.
fn run<R: Threads + Wait + Abort + Sync>(
    rt: &R,
    alloc: Global,
    scene: &Scene<'_>,
) -> (Core, Vec<Vec<u32>>) {
    let (port, mut seat) = port_of(rt, alloc, scene.settings, scene.goal);
    let told = play_all(rt, alloc, &port, &mut seat, scene.roles);
    (port.close(rt, seat), told)
}

/// Whether a run of the scene leaves what is looked for.
pub fn is_right<R: Threads + Wait + Abort + Sync>(
    rt: &R,
    alloc: Global,
    scene: &Scene<'_>,
) -> bool {
    let (core, told) = run(rt, alloc, scene);
    match scene.look {
        Look::Order => ticks::are_in_order(core.entries()),
        Look::Woken => waits::were_woken(&told),
        Look::Again => replay::is_played_again(rt, alloc, &core, &told),
    }
}
