// The server computed from its history.

ghost use Rattle.std.specs.Prelude.{◌≡◌, [], ◌∷◌, Ok, reverse, IfOk, IfErr, OnOk};
ghost use Rattle.da_hist.specs.Bridges.{Tries};
ghost use Rattle.da_play.specs.Steps.{Steps};

use crate::replay::replay;
use da_entry::Entered;
use da_play::{Entry, Input, Outputs, Refused};
use da_settings::{Goal, Settings};
use std::alloc::{AllocError, Global};
use std::marker::Model;

/// What comes of an input after these entries: the next entry and what it gives out, or why there is none.
#[tactic(auto, unfolding(da_play::specs::Play::refusal))]
fn next_of(
    alloc: Global,
    settings: &Settings,
    entries: &[Entry],
    moment: u64,
    input: Input,
) -> Result<Entered, Refused>
    ensures { Tries settings.now (reverse entries.now) moment input result }
{
    if settings.history_entries <= entries.len() as u64 {
        return Err(Refused::HistoryFull);
    }
    let Ok(replayed) = replay(alloc, settings, entries) else {
        return Err(Refused::NoMemory);
    };
    if let Some(refused) = replayed.refusal(settings, entries, moment, &input) {
        return Err(refused);
    }
    match replayed.enter(alloc, settings, entries, moment, input) {
        Ok(entered) => Ok(entered),
        Err(_) => Err(Refused::NoMemory),
    }
}

/// The sequential server, which keeps the list of its entries and computes each answer from the whole list.
#[derive(Drop)]
pub struct Plain {
    alloc: Global,
    settings: Settings,
    goal: Option<Goal>,
    entries: Vec<Entry>,
}

impl Model for Plain {
    ghost use Rattle.std.specs.Prelude.{reverse};
    ghost use Rattle.da_play.specs.Served.{Served};

    ghost Value = { Served };

    ghost view = { λ p. record { settings = p.settings; goal = p.goal; history = reverse p.entries.items } };
}

impl Plain {
    /// A server whose history is empty. It takes no memory.
    pub fn new(alloc: Global, settings: Settings, goal: Option<Goal>) -> Result<Plain, AllocError>
        ensures { result ≡ Ok (record { settings = settings; goal = goal; history = [] }) }
    {
        Ok(Plain {
            alloc,
            settings,
            goal,
            entries: Vec::new(alloc),
        })
    }

    /// Makes one entry of the input, at the moment handed in or at the last entry's, whichever is later, and gives out
    /// what the sequential server gives out. An input that may not be an entry is refused, by the first of the reasons that
    /// applies, in the order of `Refused`. After a refusal, want of memory among them, the server is as it was.
    pub fn step(&mut self, moment: u64, input: Input) -> Result<Outputs, Refused>
        ensures { Steps self.old self.new moment input result }
    {
        match next_of(self.alloc, &self.settings, &self.entries, moment, input) {
            Ok(entered) => self.push(entered),
            Err(refused) => Err(refused),
        }
    }

    fn push(&mut self, entered: Entered) -> Result<Outputs, Refused>
        ensures ok { IfOk result (λ out. out ≡ entered.outputs) }
        ensures entry { OnOk result (self.new ≡ record self.old { history = entered.entry ∷ self.old.history }) }
        ensures err { IfErr result (λ e. (e ≡ Refused.NoMemory) × (self.new ≡ self.old)) }
    {
        match self.entries.push(entered.entry) {
            Ok(()) => Ok(entered.outputs),
            Err(_) => Err(Refused::NoMemory),
        }
    }

    /// All entries, the oldest first.
    pub fn entries(&self) -> &[Entry]
        ensures { reverse result.now ≡ self.now.history }
    {
        &self.entries
    }
}
