// Pairs of threads, a reader and a writer, which serve one connection after another. A thread that is made for each
// connection and joined at the end would leave its stack behind until nothing more can be started.

ghost use Rattle.std.specs.Prelude.{◌≡◌, All, IfSome};
ghost use Rattle.da_turn.specs.Seats.{IsFree, IsOf};

use crate::desk::Desk;
use crate::seats::{Returns, Sitter, take_in};
use crate::shared::Shared;
use da_outside::{Clock, Pause, Rand, Sink, Source};
use da_port::Seat;
use da_session::{read_conn, write_conn};
use std::alloc::{AllocError, Global};
use std::sync::atomic::{AtomicU64, Ordering};
use std::sync::{Arc, Wait};
use std::thread::{Scope, Threads};

/// A half of a connection, and the connection's number.
#[derive(Drop)]
struct Half<T> {
    conn: u32,
    stream: T,
}

/// Where a pair is handed its next connection, and how many of its threads are at work.
#[derive(Drop)]
struct Desks<S, K> {
    reads: Arc<Desk<Half<S>>>,
    writes: Arc<Desk<Half<K>>>,
    busy: Arc<AtomicU64>,
}

/// A pair of threads.
#[derive(Drop)]
pub(crate) struct Pair<'a, S, K> {
    writer: Sitter<'a>,
    reader: Sitter<'a>,
    desks: Desks<S, K>,
}

impl<S: Source + Drop, K: Sink + Drop> Desks<S, K> {
    fn new(alloc: Global) -> Result<Desks<S, K>, AllocError> {
        Ok(Desks {
            reads: Arc::new(alloc, Desk::new())?,
            writes: Arc::new(alloc, Desk::new())?,
            busy: Arc::new(alloc, AtomicU64::new(0))?,
        })
    }

    fn shared(&self) -> Result<Desks<S, K>, AllocError> {
        Ok(Desks {
            reads: Arc::try_clone(&self.reads)?,
            writes: Arc::try_clone(&self.writes)?,
            busy: Arc::try_clone(&self.busy)?,
        })
    }

    fn is_idle(&self) -> bool {
        self.busy.load(Ordering::SeqCst) == 0
    }

    fn give<R: Wait>(&self, rt: &R, conn: u32, source: S, sink: K) {
        self.busy.store(2, Ordering::SeqCst);
        self.writes.put(rt, Half { conn, stream: sink });
        self.reads.put(
            rt,
            Half {
                conn,
                stream: source,
            },
        );
    }

    // One of the two threads is done with its half.
    fn finish(&self) {
        self.busy.fetch_sub(1, Ordering::SeqCst);
    }

    fn close<R: Wait>(&self, rt: &R) {
        self.writes.close(rt);
        self.reads.close(rt);
    }
}

/// Hands a connection to the first pair that is idle, or gives it back.
pub(crate) fn give_idle<'a, R: Wait, S: Source + Drop, K: Sink + Drop>(
    rt: &R,
    pairs: &[Pair<'a, S, K>],
    conn: u32,
    source: S,
    sink: K,
) -> Option<(S, K)> {
    for pair in pairs {
        if pair.desks.is_idle() {
            pair.desks.give(rt, conn, source, sink);
            return None;
        }
    }
    Some((source, sink))
}

impl<'s, R: Threads + Wait + Sync, C: Clock + Sync, Z: Pause + Sync> Shared<'s, R, C, Z> {
    // What a reader's thread does. The end of its connection ends the writer, too.
    fn host_reader<S: Source + Drop, K: Sink + Drop, G: Rand + Drop>(
        self,
        mut seat: Seat,
        desks: Desks<S, K>,
        mut rand: G,
    ) -> Seat
        requires { IsOf self.port.now seat × IsFree seat }
        ensures { IsOf self.entry.port.now result × IsFree result }
    {
        for _ in self.rt.forever() {
            let Some(half) = desks.reads.take(self.rt) else {
                break;
            };
            self.read_half(&mut seat, half, &mut rand);
            desks.finish();
        }
        seat
    }

    fn read_half<S: Source + Drop, G: Rand>(self, seat: &mut Seat, half: Half<S>, rand: &mut G)
        requires { IsOf self.port.now seat.old × IsFree seat.old }
        ensures { IsOf self.entry.port.now seat.new × IsFree seat.new }
    {
        let Half { conn, mut stream } = half;
        let _ = read_conn(
            self.rt,
            self.alloc,
            self.port,
            seat,
            conn,
            &mut stream,
            self.clock,
            rand,
            self.pause,
        );
    }

    // What a writer's thread does. Where the sink is let go the connection is shut, which ends its reader.
    fn host_writer<S: Source + Drop, K: Sink + Drop>(
        self,
        mut seat: Seat,
        desks: Desks<S, K>,
    ) -> Seat
        requires { IsOf self.port.now seat × IsFree seat }
        ensures { IsOf self.entry.port.now result × IsFree result }
    {
        for _ in self.rt.forever() {
            let Some(half) = desks.writes.take(self.rt) else {
                break;
            };
            self.write_half(&mut seat, half);
            desks.finish();
        }
        seat
    }

    fn write_half<K: Sink + Drop>(self, seat: &mut Seat, half: Half<K>)
        requires { IsOf self.port.now seat.old × IsFree seat.old }
        ensures { IsOf self.entry.port.now seat.new × IsFree seat.new }
    {
        let Half { conn, mut stream } = half;
        let _ = write_conn(self.rt, self.port, seat, conn, &mut stream, self.pause);
    }

    // Starts the thread of a pair that writes. Where it can't be started the desks are closed.
    fn start_writer<E, S: Source + Send + Drop + 's, K: Sink + Send + Drop + 's>(
        self,
        scope: &Scope<'s, E>,
        seat: &mut Seat,
        desks: &Desks<S, K>,
        theirs: Desks<S, K>,
    ) -> Option<Sitter<'s>>
        requires own { IsOf self.port.now seat.old × IsFree seat.old }
        ensures own { IsOf self.entry.port.now seat.new × IsFree seat.new }
        ensures writer { IfSome result (λ s. s.promise.0.now ≡ self.entry.port.now) }
    {
        let their_seat = self.port.split(seat);
        let writer = move || -> Seat
            requires { IsOf self.port.now their_seat × IsFree their_seat }
            ensures { IsOf self.entry.port.now result × IsFree result }
        {
            let mine = their_seat;
            let desks = theirs;
            Shared { ..self }.host_writer(mine, desks)
        };
        match scope.spawn_with(Returns(self.port), writer) {
            Ok(writer) => Some(writer),
            Err(refused) => {
                desks.close(self.rt);
                let back = (refused.value)();
                take_in(self.port, seat, back);
                None
            }
        }
    }

    // Starts the thread of a pair that reads. Where it can't be started the desks are closed.
    fn start_reader<
        E,
        S: Source + Send + Drop + 's,
        K: Sink + Send + Drop + 's,
        G: Rand + Send + Drop + 's,
    >(
        self,
        scope: &Scope<'s, E>,
        seat: &mut Seat,
        desks: &Desks<S, K>,
        theirs: Desks<S, K>,
        rand: G,
    ) -> Option<Sitter<'s>>
        requires own { IsOf self.port.now seat.old × IsFree seat.old }
        ensures own { IsOf self.entry.port.now seat.new × IsFree seat.new }
        ensures reader { IfSome result (λ s. s.promise.0.now ≡ self.entry.port.now) }
    {
        let their_seat = self.port.split(seat);
        let reader = move || -> Seat
            requires { IsOf self.port.now their_seat × IsFree their_seat }
            ensures { IsOf self.entry.port.now result × IsFree result }
        {
            let mine = their_seat;
            let desks = theirs;
            let rand = rand;
            Shared { ..self }.host_reader(mine, desks, rand)
        };
        match scope.spawn_with(Returns(self.port), reader) {
            Ok(reader) => Some(reader),
            Err(refused) => {
                desks.close(self.rt);
                let back = (refused.value)();
                take_in(self.port, seat, back);
                None
            }
        }
    }

    // Starts a pair, which is idle. Where memory is wanted, or a thread can't be started, there is none.
    fn start_pair<
        E,
        S: Source + Send + Drop + 's,
        K: Sink + Send + Drop + 's,
        G: Rand + Send + Drop + 's,
    >(self, scope: &Scope<'s, E>, seat: &mut Seat, rand: G) -> Option<Pair<'s, S, K>>
        requires own { IsOf self.port.now seat.old × IsFree seat.old }
        ensures own { IsOf self.entry.port.now seat.new × IsFree seat.new }
        ensures pair { IfSome result (λ p. (p.writer.promise.0.now ≡ self.entry.port.now)
            × (p.reader.promise.0.now ≡ self.entry.port.now)) }
    {
        let desks = Desks::new(self.alloc).ok()?;
        let for_writer = desks.shared().ok()?;
        let for_reader = desks.shared().ok()?;
        let writer = self.start_writer(scope, seat, &desks, for_writer)?;
        let reader = self.start_reader(scope, seat, &desks, for_reader, rand);
        let Some(reader) = reader else {
            let back = writer.join(self.rt);
            take_in(self.port, seat, back);
            return None;
        };
        Some(Pair {
            writer,
            reader,
            desks,
        })
    }

    /// Adds a pair that is idle. Where memory is wanted, or a thread can't be started, none is added.
    pub(crate) fn add_pair<
        E,
        S: Source + Send + Drop + 's,
        K: Sink + Send + Drop + 's,
        G: Rand + Send + Drop + 's,
    >(self, scope: &Scope<'s, E>, seat: &mut Seat, pairs: &mut Vec<Pair<'s, S, K>>, rand: G)
        requires own { IsOf self.port.now seat.old × IsFree seat.old }
        requires pairs { All (λ p. (p.writer.promise.0.now ≡ self.port.now)
            × (p.reader.promise.0.now ≡ self.port.now)) pairs.old.items }
        ensures own { IsOf self.entry.port.now seat.new × IsFree seat.new }
        ensures pairs { All (λ p. (p.writer.promise.0.now ≡ self.entry.port.now)
            × (p.reader.promise.0.now ≡ self.entry.port.now)) pairs.new.items }
    {
        if let Some(pair) = self.start_pair(scope, seat, rand) {
            self.keep_pair(seat, pairs, pair);
        }
    }

    // Keeps an idle pair. Where memory is wanted it ends.
    fn keep_pair<S: Source + Drop, K: Sink + Drop>(
        self,
        seat: &mut Seat,
        pairs: &mut Vec<Pair<'s, S, K>>,
        pair: Pair<'s, S, K>,
    )
        requires own { IsOf self.port.now seat.old × IsFree seat.old }
        requires pairs { All (λ p. (p.writer.promise.0.now ≡ self.port.now)
            × (p.reader.promise.0.now ≡ self.port.now)) pairs.old.items }
        requires pair { (pair.writer.promise.0.now ≡ self.port.now)
            × (pair.reader.promise.0.now ≡ self.port.now) }
        ensures own { IsOf self.entry.port.now seat.new × IsFree seat.new }
        ensures pairs { All (λ p. (p.writer.promise.0.now ≡ self.entry.port.now)
            × (p.reader.promise.0.now ≡ self.entry.port.now)) pairs.new.items }
    {
        if let Err(refused) = pairs.push(pair) {
            self.join_pair(seat, refused.value);
        }
    }

    fn join_pair<S: Source + Drop, K: Sink + Drop>(self, seat: &mut Seat, pair: Pair<'s, S, K>)
        requires own { IsOf self.port.now seat.old × IsFree seat.old }
        requires pair { (pair.writer.promise.0.now ≡ self.port.now)
            × (pair.reader.promise.0.now ≡ self.port.now) }
        ensures { IsOf self.entry.port.now seat.new × IsFree seat.new }
    {
        let Pair {
            writer,
            reader,
            desks,
        } = pair;
        desks.close(self.rt);
        let back = writer.join(self.rt);
        take_in(self.port, seat, back);
        let back = reader.join(self.rt);
        take_in(self.port, seat, back);
    }

    /// Joins the threads of all pairs, in the order of their start, once their connections have ended.
    pub(crate) fn join_pairs<S: Source + Drop, K: Sink + Drop>(
        self,
        seat: &mut Seat,
        pairs: Vec<Pair<'s, S, K>>,
    )
        requires own { IsOf self.port.now seat.old × IsFree seat.old }
        requires pairs { All (λ p. (p.writer.promise.0.now ≡ self.port.now)
            × (p.reader.promise.0.now ≡ self.port.now)) pairs.items }
        ensures { IsOf self.entry.port.now seat.new × IsFree seat.new }
    {
        for pair in pairs {
            self.join_pair(seat, pair);
        }
    }
}
