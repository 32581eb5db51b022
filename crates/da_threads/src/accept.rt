// Accepts connections, and hands them to pairs of threads.

ghost use Rattle.std.specs.Prelude.{◌≡◌, All};
ghost use Rattle.da_turn.specs.Seats.{IsFree, IsOf};

use crate::pairs::{Pair, give_idle};
use crate::shared::Shared;
use da_msgs::ConnKind;
use da_outside::{Clock, Listen, Pause, Rand, Sink, Source};
use da_play::Refused;
use da_port::Seat;
use std::sync::Wait;
use std::thread;
use std::thread::{Scope, Threads};

// Whether so many connections are enough.
fn is_enough(limit: Option<u32>, count: u32) -> bool {
    match limit {
        Some(limit) => count >= limit,
        None => false,
    }
}

// What comes of a connection that was accepted.
#[derive(Clone, Copy, Drop)]
enum Admitted {
    Served,
    /// It was refused, and is dropped.
    Dropped,
    /// The history is full.
    Full,
}

impl<'s, R: Threads + Wait + Sync, C: Clock + Sync, Z: Pause + Sync> Shared<'s, R, C, Z> {
    // Lets a connection go that nobody can serve: its end is recorded. Where memory is wanted it rests and tries again.
    fn let_go(self, seat: &mut Seat, conn: u32)
        requires { IsOf self.port.now seat.old × IsFree seat.old }
        ensures { IsOf self.entry.port.now seat.new × IsFree seat.new }
    {
        for _ in self.rt.forever() {
            match self.port.gone(self.rt, seat, self.clock.now(), conn) {
                Err(Refused::NoMemory) => self.pause.rest(),
                _ => return,
            }
        }
        unreachable!()
    }

    // Serves a connection by an idle pair, or else by a new one. Where there is none the connection is let go.
    fn serve_conn<
        E,
        S: Source + Send + Drop + 's,
        K: Sink + Send + Drop + 's,
        G: Rand + Send + Drop + 's,
    >(
        self,
        scope: &Scope<'s, E>,
        seat: &mut Seat,
        pairs: &mut Vec<Pair<'s, S, K>>,
        conn: u32,
        source: S,
        sink: K,
        rand: &mut G,
    )
        requires own { IsOf self.port.now seat.old × IsFree seat.old }
        requires pairs { All (λ p. (p.writer.promise.0.now ≡ self.port.now)
            × (p.reader.promise.0.now ≡ self.port.now)) pairs.old.items }
        ensures own { IsOf self.entry.port.now seat.new × IsFree seat.new }
        ensures pairs { All (λ p. (p.writer.promise.0.now ≡ self.entry.port.now)
            × (p.reader.promise.0.now ≡ self.entry.port.now)) pairs.new.items }
    {
        let Some((source, sink)) = give_idle(self.rt, pairs.as_slice(), conn, source, sink) else {
            return;
        };
        let theirs = rand.fork();
        self.add_pair(scope, seat, pairs, theirs);
        if give_idle(self.rt, pairs.as_slice(), conn, source, sink).is_some() {
            self.let_go(seat, conn);
        }
    }

    // Records a connection that was accepted, and has it served.
    fn admit<
        E,
        S: Source + Send + Drop + 's,
        K: Sink + Send + Drop + 's,
        G: Rand + Send + Drop + 's,
    >(
        self,
        scope: &Scope<'s, E>,
        seat: &mut Seat,
        pairs: &mut Vec<Pair<'s, S, K>>,
        kind: ConnKind,
        source: S,
        sink: K,
        rand: &mut G,
    ) -> Admitted
        requires own { IsOf self.port.now seat.old × IsFree seat.old }
        requires pairs { All (λ p. (p.writer.promise.0.now ≡ self.port.now)
            × (p.reader.promise.0.now ≡ self.port.now)) pairs.old.items }
        ensures own { IsOf self.entry.port.now seat.new × IsFree seat.new }
        ensures pairs { All (λ p. (p.writer.promise.0.now ≡ self.entry.port.now)
            × (p.reader.promise.0.now ≡ self.entry.port.now)) pairs.new.items }
    {
        match self
            .port
            .connect(self.rt, seat, self.clock.now(), kind, rand.bytes())
        {
            Ok(conn) => {
                self.serve_conn(scope, seat, pairs, conn, source, sink, rand);
                Admitted::Served
            }
            Err(Refused::HistoryFull) => Admitted::Full,
            Err(_) => Admitted::Dropped,
        }
    }

    fn accept_loop<E, L: Listen, G: Rand + Send + Drop + 's>(
        self,
        scope: &Scope<'s, E>,
        mut seat: Seat,
        kind: ConnKind,
        listen: &mut L,
        limit: Option<u32>,
        mut rand: G,
    ) -> Seat
    where
        L::Source: Send + Drop + 's,
        L::Sink: Send + Drop + 's,
        requires { IsOf self.port.now seat × IsFree seat }
        ensures { IsOf self.entry.port.now result × IsFree result }
    {
        let mut pairs = Vec::new(self.alloc);
        let mut count = 0u32;
        for _ in self.rt.forever() {
            if is_enough(limit, count) {
                break;
            }
            let Ok((source, sink)) = listen.accept(self.alloc) else {
                if self.port.end(self.rt, &mut seat).is_some() {
                    break;
                }
                self.pause.rest();
                continue;
            };
            match self.admit(scope, &mut seat, &mut pairs, kind, source, sink, &mut rand) {
                Admitted::Served => count = count.saturating_add(1),
                Admitted::Dropped => {}
                Admitted::Full => break,
            }
        }
        self.join_pairs(&mut seat, pairs);
        seat
    }

    /// Accepts connections of a kind until so many are recorded, or the history has ended, and joins their threads. An
    /// accept that fails is tried again after a rest.
    pub fn accept_conns<L: Listen, G: Rand + Send + Drop>(
        self,
        seat: Seat,
        kind: ConnKind,
        listen: &mut L,
        limit: Option<u32>,
        rand: G,
    ) -> Seat
    where
        L::Source: Send + Drop,
        L::Sink: Send + Drop,
        requires { IsOf self.port.now seat × IsFree seat }
        ensures { IsOf self.entry.port.now result × IsFree result }
    {
        thread::scope(
            thread::scope_env(),
            self.rt,
            |scope| -> Seat
                requires { IsOf self.port.now seat × IsFree seat }
                ensures { IsOf self.entry.port.now result × IsFree result }
            {
                let mine = seat;
                let rand = rand;
                Shared { ..self }.accept_loop(scope, mine, kind, listen, limit, rand)
            },
        )
    }
}
