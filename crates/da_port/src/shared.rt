// The core behind the turn, and an entry made under it.

ghost use Rattle.std.specs.Prelude.{◌≡◌, ◌<◌, ◌^◌, [], ◌∷◌, length, reverse, Ok, OnOk, IfOk, IfErr, true, false};
ghost use Rattle.da_turn.specs.Seats.{Grows};
ghost use Rattle.da_play.specs.Legal.{IsLegal};
ghost use Rattle.da_play.specs.Steps.{Steps};
ghost use Rattle.da_port.specs.Terms.{terms_of};

use crate::terms::Terms;
use da_core::Core;
use da_play::{Entry, Input, Outputs, Refused};
use da_turn::{Held, Kept};
use std::marker::Model;

/// What the turn of a port keeps: a core, which stands for its entries. In a clause it is that core.
#[derive(Drop)]
pub struct SharedCore {
    core: Core,
}

/// What a thread steps with.
pub type Seat = da_turn::Seat<SharedCore>;

impl Model for SharedCore {
    ghost use Rattle.da_play.specs.Legal.{IsLegal};
    ghost use Rattle.da_play.specs.Served.{Served};

    ghost Value = { Served };

    ghost view = { λ s. s.core };

    ghost invariant = { λ s. IsLegal s.core.settings s.core.history };
}

impl Kept for SharedCore {
    type Entry = Entry;

    type Fixed = Terms;

    ghost use Rattle.da_port.specs.Terms.{terms_of};

    ghost entries = { λ _ c. c.history };

    ghost fixed = { λ c. terms_of c };
}

impl SharedCore {
    pub(crate) fn new(core: Core) -> SharedCore
        requires { core.history ≡ [] }
        ensures { result ≡ core }
    {
        SharedCore { core }
    }

    pub(crate) fn core(&self) -> &Core
        ensures { result.now ≡ self.now }
    {
        &self.core
    }

    pub(crate) fn into_core(self) -> Core
        ensures core { result ≡ self }
        ensures legal { IsLegal result.settings result.history }
    {
        let SharedCore { core } = self;
        core
    }

    // Each entry has a number.
    fn entries_are_few(&self)
        ensures { length self.now.history < 2 ^ 64 }
    {
        let _ = self.core.entries().len() as u64;
    }

    fn step(&mut self, moment: u64, input: Input) -> Result<Outputs, Refused>
        ensures steps { Steps self.old self.new moment input result }
        ensures legal { IsLegal self.new.settings self.new.history }
        ensures few { length self.new.history < 2 ^ 64 }
    {
        let reply = self.core.step(moment, input);
        self.entries_are_few();
        reply
    }
}

/// Makes an entry of the input, under the turn.
pub(crate) fn record(
    held: &mut Held<SharedCore>,
    moment: u64,
    input: Input,
) -> Result<Outputs, Refused>
    requires { held.old.added ≡ false }
    ensures steps { Steps held.old.value held.new.value moment input result }
    ensures grows { Grows held.new.added held.old.value.history held.new.value.history }
    ensures terms { terms_of held.new.value ≡ terms_of held.old.value }
    ensures added { IfOk result (λ _. held.new.added ≡ true) }
    ensures none { IfErr result (λ _. held.new.added ≡ false) }
    ensures legal { IsLegal held.new.value.settings held.new.value.history }
{
    let out = held.value.step(moment, input)?;
    held.added = true;
    Ok(out)
}
