// The port, and one entry made by it.

ghost use Rattle.std.specs.Prelude.{◌≡◌, ◌+◌, [], IfOk, IfErr};
ghost use Rattle.da_turn.specs.Entries.{IsLater, IsUnion, NumbersApart, longer, merged};
ghost use Rattle.da_turn.specs.Seats.{IsOf, IsFree, IsSame, IsSound, seen, made, parted, fixed_of};
ghost use Rattle.da_play.specs.Legal.{IsLegal};
ghost use Rattle.da_port.specs.Calls.{Records, Refuses, Stays};
ghost use Rattle.da_port.specs.Terms.{terms_of};

use crate::bell::Bells;
use crate::rings::{Ringing, Rings, ended_by};
use crate::shared::{Seat, SharedCore, record};
use da_core::Core;
use da_play::{Input, Outputs, Refused};
use da_settings::{Goal, Settings};
use da_turn::Turn;
use std::alloc::{AllocError, Global};
use std::marker::Model;
use std::sync::Wait;

/// One server that threads share. In a clause it is its turn: the table, and as the fixed part its terms.
#[derive(Drop)]
pub struct Port {
    pub(crate) turn: Turn<SharedCore>,
    pub(crate) bells: Box<Bells>,
}

impl Model for Port {
    ghost use Rattle.da_turn.specs.Seats.{Place};
    ghost use Rattle.da_port.specs.declared.terms.Terms.{Terms};

    ghost Value = { Place Terms };

    ghost view = { λ p. p.turn };
}

impl Port {
    /// A port whose history is empty, and its first seat.
    pub fn new(
        alloc: Global,
        settings: Settings,
        goal: Option<Goal>,
    ) -> Result<(Port, Seat), AllocError>
        ensures seat { IfOk result (λ r. IsOf r.0 r.1 × IsFree r.1) }
        ensures blank { IfOk result (λ r. (seen r.1 ≡ []) × (made r.1 ≡ []) × (parted r.1 ≡ 0)) }
        ensures terms { IfOk result (λ r. r.0.fixed ≡ record { settings = settings; goal = goal }) }
    {
        let bells = Box::new(alloc, Bells::new())?;
        let core = Core::new(alloc, settings, goal)?;
        match Turn::new(alloc, SharedCore::new(core)) {
            Ok((turn, seat)) => Ok((Port { turn, bells }, seat)),
            Err((core, fault)) => {
                drop(core);
                Err(fault)
            }
        }
    }

    // Counts what an entry rings, under its turn.
    fn count(
        &self,
        core: &Core,
        waited: usize,
        ended: Option<u32>,
        reply: &Result<Outputs, Refused>,
    ) -> Rings {
        match reply {
            Ok(out) => {
                let rings = Rings::after(core, waited, ended);
                self.bells.ring(Ringing::Count, rings, out);
                rings
            }
            Err(_) => Rings::none(),
        }
    }

    // Wakes those whom an entry concerns, once the turn is passed on.
    fn wake(&self, but: Option<u32>, rings: Rings, reply: &Result<Outputs, Refused>) {
        if let Ok(out) = reply {
            self.bells.ring(Ringing::Wake { but }, rings, out);
        }
    }

    /// Makes an entry of the input in one turn. Whoever waits for lines of the connection `but` is left asleep.
    pub(crate) fn enter<R: Wait>(
        &self,
        rt: &R,
        seat: &mut Seat,
        moment: u64,
        input: Input,
        but: Option<u32>,
    ) -> Result<Outputs, Refused>
        requires own { IsOf self.now seat.old × IsFree seat.old }
        ensures seat { Stays seat.old seat.new }
        ensures ok { IfOk result (λ out. Records self.now.fixed seat.old seat.new moment input out) }
        ensures err { IfErr result (λ refused. Refuses self.now.fixed seat.old seat.new moment input refused) }
    {
        let ended = ended_by(&input);
        let mut held = self.turn.enter(rt, seat);
        let waited = held.value.core().waiting();
        let reply = record(&mut held, moment, input);
        let rings = self.count(held.value.core(), waited, ended, &reply);
        self.turn.leave(seat, held);
        self.wake(but, rings, &reply);
        reply
    }

    /// A seat for another thread. It has seen as much, and has made nothing.
    pub fn split(&self, seat: &mut Seat) -> Seat
        requires own { IsOf self.now seat.old × IsFree seat.old }
        ensures old { IsSame seat.old seat.new × IsFree seat.new }
        ensures kept { (seen seat.new ≡ seen seat.old) × (made seat.new ≡ made seat.old) × (fixed_of seat.new ≡ fixed_of seat.old) }
        ensures parted { parted seat.new ≡ parted seat.old + 1 }
        ensures new { IsOf self.now result × IsFree result }
        ensures blank { (seen result ≡ seen seat.old) × (made result ≡ []) × (parted result ≡ 0) }
    {
        self.turn.split(seat)
    }

    /// The seat takes in what another one has seen and made.
    pub fn join(&self, seat: &mut Seat, other: Seat)
        requires own { IsOf self.now seat.old × IsFree seat.old }
        requires other { IsOf self.now other × IsFree other }
        ensures seat { IsSame seat.old seat.new × IsFree seat.new × (fixed_of seat.new ≡ fixed_of seat.old) }
        ensures seen { seen seat.new ≡ longer (seen seat.old) (seen other) }
        ensures later { IsLater (seen seat.old) (seen seat.new) × IsLater (seen other) (seen seat.new) }
        ensures apart { NumbersApart (made seat.old) (made other) }
        ensures made { made seat.new ≡ merged (made seat.old) (made other) }
        ensures both { IsUnion (made seat.old) (made other) (made seat.new) }
        ensures parted { parted seat.new ≡ parted seat.old + parted other }
        ensures sound { IsSound seat.new }
    {
        self.turn.join(seat, other);
    }

    /// Waits for the seat's turn, and keeps the core: its history is legal, and begins with what the seat has seen.
    pub fn close<R: Wait>(self, rt: &R, seat: Seat) -> Core
        requires own { IsOf self seat × IsFree seat }
        ensures later { IsLater (seen seat) result.history }
        ensures terms { terms_of result ≡ self.fixed }
        ensures legal { IsLegal result.settings result.history }
    {
        let Port { turn, bells: _ } = self;
        turn.close(rt, seat).into_core()
    }
}
