// The server with its tables beside its history.

ghost use Rattle.std.specs.Prelude.{◌≡◌, ◌-◌, ◌^◌, ◌<◌, vec_len, vec_capacity, ◌++◌, ◌∷◌, [], Ok, None, reverse, length, IfOk, IfErr, OnOk};
ghost use Rattle.da_core.specs.Clock.{due_at, needs_clock};
ghost use Rattle.da_core.specs.Bridges.{IsNextOf};
ghost use Rattle.da_core.specs.Outgoing.{TakesLines, has_ended};
ghost use Rattle.da_play.specs.History.{tables_of};
ghost use Rattle.da_play.specs.Legal.{is_full, is_over, entry_moment};
ghost use Rattle.da_play.specs.Play.{refusal, next_entry};
ghost use Rattle.da_play.specs.Steps.{Steps};
ghost use Rattle.da_tables.specs.Queries.{waiting, running};

use crate::clock::{Due, first_late, next_dues, some_is_reached, some_is_set, some_runs};
use crate::counts::{has_met, running_count, waiting_count};
use crate::outgoing::{Taken, copy_from};
use da_entry::{Entered, Replayed, entry_moment};
use da_outbox::Outboxes;
use da_play::{Entry, Input, Outputs, Refused};
use da_settings::{Goal, Settings};
use std::alloc::{AllocError, Global};
use std::marker::Model;

/// The sequential server, which keeps what follows from its history beside it.
#[derive(Drop)]
pub struct Core {
    alloc: Global,
    settings: Settings,
    goal: Option<Goal>,
    entries: Vec<Entry>,
    replayed: Replayed,
    dues: Vec<Option<u64>>,
    outboxes: Outboxes,
}

/// The next entry, all that comes of it, and when replies come due after it.
#[derive(Drop)]
struct Planned {
    entered: Entered,
    dues: Vec<Option<u64>>,
}

/// Puts the entry last. There is room for it.
fn put_last(entries: &mut Vec<Entry>, entry: Entry)
    requires { vec_len entries.old < vec_capacity entries.old }
    ensures { entries.new.items ≡ entries.old.items ++ entry ∷ [] }
{
    entries.push(entry).unwrap();
}

impl Model for Core {
    ghost use Rattle.std.specs.Prelude.{reverse};
    ghost use Rattle.da_core.specs.Bridges.{IsKept};
    ghost use Rattle.da_play.specs.Served.{Served};

    ghost Value = { Served };

    ghost view = { λ c. record { settings = c.settings; goal = c.goal; history = reverse c.entries.items } };

    ghost invariant = { λ c. IsKept c.settings (reverse c.entries.items) c.replayed c.dues.items c.outboxes };
}

impl Core {
    /// A server whose history is empty. It takes no memory.
    pub fn new(alloc: Global, settings: Settings, goal: Option<Goal>) -> Result<Core, AllocError>
        ensures { result ≡ Ok (record { settings = settings; goal = goal; history = [] }) }
    {
        let replayed = Replayed::new(alloc, &settings);
        Ok(Core {
            alloc,
            settings,
            goal,
            entries: Vec::new(alloc),
            replayed,
            dues: Vec::new(alloc),
            outboxes: Outboxes::new(alloc),
        })
    }

    /// Makes one entry of the input, at the moment handed in or at the last entry's, whichever is later, and gives out
    /// what the sequential server gives out. An input that may not be an entry is refused, by the first of the reasons that
    /// applies, in the order of `Refused`. After a refusal, want of memory among them, the server is as it was.
    pub fn step(&mut self, moment: u64, input: Input) -> Result<Outputs, Refused>
        ensures { Steps self.old self.new moment input result }
    {
        if let Some(refused) = self.refusal(moment, &input) {
            return Err(refused);
        }
        match self.plan(moment, input) {
            Ok(planned) => self.keep(planned),
            Err(_) => Err(Refused::NoMemory),
        }
    }

    fn refusal(&self, moment: u64, input: &Input) -> Option<Refused>
        ensures few { result ≡ None → length self.now.history < 2 ^ 32 - 2 }
        ensures refusal { result ≡ refusal self.now.settings self.now.history (entry_moment self.now.history moment) input.now }
    {
        self.replayed
            .refusal(&self.settings, &self.entries, moment, input)
    }

    /// The next entry, and all that comes of it. Nothing changes.
    fn plan(&self, moment: u64, input: Input) -> Result<Planned, AllocError>
        requires few { length self.now.history < 2 ^ 32 - 2 }
        ensures entry { IfOk result (λ p. p.entered.entry ≡ next_entry self.now.settings self.now.history moment input) }
        ensures next { IfOk result (λ p. IsNextOf self.now p.entered p.dues.items) }
    {
        let replayed = self.replayed.copy(self.alloc)?;
        let entered = replayed.enter(self.alloc, &self.settings, &self.entries, moment, input)?;
        let requests = entered.replayed.tables.requests.all();
        let dues = next_dues(self.alloc, &self.settings, requests)?;
        Ok(Planned { entered, dues })
    }

    /// Takes the memory that is left to take, and then changes.
    fn keep(&mut self, planned: Planned) -> Result<Outputs, Refused>
        requires { IsNextOf self.old planned.entered planned.dues.items }
        ensures ok { IfOk result (λ out. out ≡ planned.entered.outputs) }
        ensures entry { OnOk result (self.new ≡ record self.old { history = planned.entered.entry ∷ self.old.history }) }
        ensures err { IfErr result (λ e. (e ≡ Refused.NoMemory) × (self.new ≡ self.old)) }
    {
        if self.entries.reserve(1).is_err() {
            return Err(Refused::NoMemory);
        }
        let Planned { entered, dues } = planned;
        let Entered {
            entry,
            outputs,
            replayed,
        } = entered;
        let due = outputs.due_lines.all();
        let own = outputs.lines.all();
        let Ok(()) = self.outboxes.push_both(self.alloc, due, own) else {
            return Err(Refused::NoMemory);
        };
        put_last(&mut self.entries, entry);
        self.replayed = replayed;
        self.dues = dues;
        Ok(outputs)
    }

    /// All entries, the oldest first.
    pub fn entries(&self) -> &[Entry]
        ensures { reverse result.now ≡ self.now.history }
    {
        &self.entries
    }

    /// How many queries wait.
    pub fn waiting(&self) -> usize
        ensures { result ≡ length (waiting (tables_of self.now.settings self.now.history)) }
    {
        waiting_count(&self.replayed.tables)
    }

    /// How many queries run.
    pub fn running(&self) -> usize
        ensures { result ≡ length (running (tables_of self.now.settings self.now.history)) }
    {
        running_count(&self.replayed.tables)
    }

    /// Whether the history has as many entries or bytes as it may have.
    pub fn is_full(&self) -> bool
        ensures { result ≡ is_full self.now.settings self.now.history }
    {
        self.replayed.is_full(&self.settings, &self.entries)
    }

    /// Whether a goal was given and is met.
    pub fn is_over(&self) -> bool
        ensures { result ≡ is_over self.now.settings self.now.goal self.now.history }
    {
        match &self.goal {
            Some(goal) => has_met(goal, self.replayed.tables.connections.all()),
            None => false,
        }
    }

    /// What is due at this moment, or at the last entry's where that is later: whether a reply is, or a request has reached
    /// its limit, and the first running query that is late then.
    pub fn due(&self, moment: u64) -> Due
        ensures { result ≡ due_at self.now moment }
    {
        let moment = entry_moment(&self.entries, moment);
        let queries = self.replayed.tables.queries.all();
        Due {
            reply: some_is_reached(&self.dues, moment),
            query: first_late(&self.settings, moment, queries),
        }
    }

    /// Whether something comes due as time passes, without any further input: a query runs, a reply is held back, or a
    /// client's request isn't decided. Where nothing does, no moment makes `due` tell anything until the next entry.
    pub fn needs_clock(&self) -> bool
        ensures { result ≡ needs_clock self.now.settings self.now.history }
    {
        let runs = some_runs(self.replayed.tables.queries.all());
        let is_awaited = some_is_set(&self.dues);
        runs || is_awaited
    }

    fn has_ended(&self, conn: u32) -> bool
        ensures { result ≡ has_ended self.now conn }
    {
        !self.replayed.tables.is_open(conn) || self.is_full() || self.is_over()
    }

    /// Copies the bytes of the connection's lines, each with its LF, from a place on, as many as fit. A connection that
    /// isn't there has no bytes. It tells that they ended where the connection isn't open, or the history is full, or the
    /// goal is met, and no byte is left after these.
    pub fn take_lines(&self, conn: u32, from: u64, buf: &mut [u8]) -> Taken
        ensures { TakesLines self.now conn from buf.old buf.new result }
    {
        let bytes = self.outboxes.bytes(conn);
        let count = copy_from(bytes, from, buf);
        let is_last = bytes.len() as u64 <= from.saturating_add(count as u64);
        Taken {
            count,
            ended: self.has_ended(conn) && is_last,
        }
    }
}
