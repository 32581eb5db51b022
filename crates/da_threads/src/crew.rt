// The workers, a thread each.

ghost use Rattle.std.specs.Prelude.{◌≡◌, All};
ghost use Rattle.da_turn.specs.Seats.{IsFree, IsOf};

use crate::desk::Desk;
use crate::seats::{Returns, Sitter, take_in};
use crate::shared::Shared;
use da_outside::{Clock, Crew, Pause, Runner, Spawner};
use da_port::Seat;
use da_workers::serve_worker;
use std::sync::{Arc, Wait};
use std::thread::{Scope, Threads};

/// What a worker is given.
#[derive(Drop)]
struct Tools<P, U> {
    spawner: P,
    runner: U,
}

impl<'s, R: Threads + Wait + Sync, C: Clock + Sync, Z: Pause + Sync> Shared<'s, R, C, Z> {
    // What a worker's thread does: once it has its tools it serves until the history has ended.
    fn host_worker<P: Spawner + Drop, U: Runner + Drop>(
        self,
        mut seat: Seat,
        desk: Arc<Desk<Tools<P, U>>>,
    ) -> Seat
        requires own { IsOf self.port.now seat × IsFree seat }
        requires terms { self.settings.now ≡ self.port.now.fixed.settings }
        ensures { IsOf self.entry.port.now result × IsFree result }
    {
        if let Some(tools) = desk.take(self.rt) {
            self.work(&mut seat, tools);
        }
        seat
    }

    fn work<P: Spawner + Drop, U: Runner + Drop>(self, seat: &mut Seat, tools: Tools<P, U>)
        requires own { IsOf self.port.now seat.old × IsFree seat.old }
        requires terms { self.settings.now ≡ self.port.now.fixed.settings }
        ensures { IsOf self.entry.port.now seat.new × IsFree seat.new }
    {
        let Tools {
            mut spawner,
            mut runner,
        } = tools;
        let _ = serve_worker(
            self.rt,
            self.alloc,
            self.port,
            seat,
            self.settings,
            &mut spawner,
            &mut runner,
            self.clock,
            self.pause,
        );
    }

    // Keeps a worker that has no tools yet, and hands it its tools. Where memory is wanted it ends without them.
    fn keep_worker<P: Spawner + Drop, U: Runner + Drop>(
        self,
        seat: &mut Seat,
        sitters: &mut Vec<Sitter<'s>>,
        sitter: Sitter<'s>,
        desk: &Desk<Tools<P, U>>,
        tools: Tools<P, U>,
    )
        requires own { IsOf self.port.now seat.old × IsFree seat.old }
        requires sitters { All (λ s. s.promise.0.now ≡ self.port.now) sitters.old.items }
        requires sitter { sitter.promise.0.now ≡ self.port.now }
        ensures own { IsOf self.entry.port.now seat.new × IsFree seat.new }
        ensures sitters { All (λ s. s.promise.0.now ≡ self.entry.port.now) sitters.new.items }
    {
        if let Err(refused) = sitters.push(sitter) {
            desk.close(self.rt);
            let back = refused.value.join(self.rt);
            take_in(self.port, seat, back);
            return;
        }
        desk.put(self.rt, tools);
    }

    // Starts a worker. Where memory is wanted, or a thread can't be started, there is one less.
    fn start_worker<E, P: Spawner + Send + Drop + 's, U: Runner + Send + Drop + 's>(
        self,
        scope: &Scope<'s, E>,
        seat: &mut Seat,
        sitters: &mut Vec<Sitter<'s>>,
        tools: Tools<P, U>,
    )
    where
        P::Link: Send + Drop,
        requires own { IsOf self.port.now seat.old × IsFree seat.old }
        requires terms { self.settings.now ≡ self.port.now.fixed.settings }
        requires sitters { All (λ s. s.promise.0.now ≡ self.port.now) sitters.old.items }
        ensures own { IsOf self.entry.port.now seat.new × IsFree seat.new }
        ensures sitters { All (λ s. s.promise.0.now ≡ self.entry.port.now) sitters.new.items }
    {
        let Ok(desk) = Arc::new(self.alloc, Desk::new()) else {
            return;
        };
        let Ok(for_worker) = Arc::try_clone(&desk) else {
            return;
        };
        let theirs = self.port.split(seat);
        let worker = move || -> Seat
            requires { IsOf self.port.now theirs × IsFree theirs
                × (self.settings.now ≡ self.port.now.fixed.settings) }
            ensures { IsOf self.entry.port.now result × IsFree result }
        {
            let mine = theirs;
            let desk = for_worker;
            Shared { ..self }.host_worker(mine, desk)
        };
        match scope.spawn_with(Returns(self.port), worker) {
            Ok(sitter) => self.keep_worker(seat, sitters, sitter, &desk, tools),
            Err(refused) => {
                desk.close(self.rt);
                let back = (refused.value)();
                take_in(self.port, seat, back);
            }
        }
    }

    /// Starts as many workers as the settings have.
    pub fn start_workers<E, W: Crew>(
        self,
        scope: &Scope<'s, E>,
        seat: &mut Seat,
        sitters: &mut Vec<Sitter<'s>>,
        crew: &mut W,
    )
    where
        W::Spawner: Send + Drop + 's,
        <W::Spawner as Spawner>::Link: Send + Drop,
        W::Runner: Send + Drop + 's,
        requires own { IsOf self.port.now seat.old × IsFree seat.old }
        requires terms { self.settings.now ≡ self.port.now.fixed.settings }
        requires sitters { All (λ s. s.promise.0.now ≡ self.port.now) sitters.old.items }
        ensures own { IsOf self.entry.port.now seat.new × IsFree seat.new }
        ensures sitters { All (λ s. s.promise.0.now ≡ self.entry.port.now) sitters.new.items }
    {
        let settings = self.settings;
        for _ in 0..settings.workers {
            let (spawner, runner) = crew.member();
            self.start_worker(scope, seat, sitters, Tools { spawner, runner });
        }
    }
}
