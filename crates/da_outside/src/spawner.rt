ghost use Rattle.std.specs.Prelude.{◌≡◌, ◌++◌, ◌∷◌, [], List, ℕ, All, None, Some, IfOk, IsErr, IsErrOf, IsOkAnd, IsTrue, false, if◌then◌else◌, nat_eq};
ghost use Rattle.std.specs.Result.{result_ok};
ghost use Rattle.da_outside.specs.declared.link.Spoken.{Spoken};
ghost use Rattle.da_outside.specs.declared.spawner.Spawned.{Spawned};
ghost use Rattle.da_outside.specs.Calls.{called, fails_next, faulted, no_calls};
ghost use Rattle.da_outside.specs.Causes.{HasGetCause};
ghost use Rattle.da_outside.specs.Link.{mem_link, MemReceives, MemSends};
ghost use Rattle.da_outside.specs.Past.{Recalls, Stays, Takes};
ghost use Rattle.da_outside.specs.Spawner.{HandsBack, IsFresh, IsUnused, SoundStarts, SpawnerState, TakesOver, mem_spawner, start_kept};

use crate::calls::Calls;
use crate::first::take_first;
use crate::kept::Kept;
use crate::{Failed, GetFault, Link, MemLink, SoundLink, Spoken};
use std::alloc::Global;
use std::marker::Model;

/// The talk of a link.
#[derive(Debug, Drop)]
pub struct Talk {
    spoken: Vec<Spoken>,
}

impl Model for Talk {
    ghost use Rattle.std.specs.Prelude.{List};
    ghost use Rattle.da_outside.specs.declared.link.Spoken.{Spoken};

    ghost Value = { List Spoken };

    ghost view = { λ talk. talk.spoken.items };
}

impl Talk {
    /// These sends and receives.
    pub fn new(spoken: Vec<Spoken>) -> Talk
        ensures { result ≡ spoken.items }
    {
        Talk { spoken }
    }

    /// The sends and receives, in order.
    pub fn spoken(&self) -> &[Spoken]
        ensures { result.now ≡ self.now }
    {
        &self.spoken
    }
}

/// What a spawner keeps.
#[derive(Debug, Drop)]
pub enum Spawned {
    /// A start failed.
    FailedStart,
    /// A link came back, with this talk.
    HandedBack(Talk),
}

/// What starts workers, and takes their links back.
pub trait Spawner {
    type Link: Link;

    /// What it tells: the links to come; its failed starts and the talks of the links that came back; and how often it
    /// failed, or a link came back that had failed.
    ghost state: { Self → SpawnerState Self.Link };

    /// Starts a worker by its command. It is never `Long`.
    fn start(&mut self, alloc: Global, command: &[Vec<u8>]) -> Result<Self::Link, GetFault>
        ensures never_long { IsErrOf result GetFault.Long → ⊥ }
        ensures fresh { IfOk result (λ link. IsFresh (Self.Link.state link)) }
        ensures left { Takes (state self.old).left (state self.new).left (result_ok result) }
        ensures past { Recalls (state self.old).past (state self.new).past (start_kept result) }
        ensures cause { HasGetCause (state self.old).faults (state self.new).faults result };

    /// Ends a link. It takes no memory, since `start` made the room.
    fn finish(&mut self, link: Self::Link)
        ensures left { Stays (state self.old).left (state self.new).left }
        ensures past { HandsBack (state self.old).past (state self.new).past (Self.Link.state link).talk }
        ensures faults { TakesOver (state self.old).faults (state self.new).faults (Self.Link.state link).faults };
}

/// A link that a spawner in memory started, with the room for its talk.
#[derive(Drop)]
pub struct StartedLink {
    link: MemLink,
    room: Box<Kept>,
}

impl Model for StartedLink {
    ghost use Rattle.da_outside.specs.Link.{MemLinkState};

    ghost Value = { MemLinkState };

    ghost view = { λ started. started.link };
}

impl Link for StartedLink {
    ghost state = { mem_link };

    fn send(&mut self, line: &[u8]) -> Result<(), Failed>
        ensures { MemSends self.old self.new line.now result }
    {
        self.link.send(line)
    }

    fn receive(&mut self, alloc: Global) -> Result<Vec<u8>, GetFault>
        ensures { MemReceives self.old self.new result }
    {
        self.link.receive(alloc)
    }
}

/// A spawner that starts these links, and some starts of which fail. It keeps their talks.
#[derive(Drop)]
pub struct MemSpawner {
    links: Vec<MemLink>,
    past: Kept,
    calls: Calls,
}

impl Model for MemSpawner {
    ghost use Rattle.std.specs.Prelude.{All};
    ghost use Rattle.da_outside.specs.Spawner.{IsUnused, MemSpawnerState};

    ghost Value = { MemSpawnerState };

    ghost view = { λ spawner. record { left = spawner.links.items; past = spawner.past; calls = spawner.calls } };

    ghost invariant = { λ spawner. All IsUnused spawner.links.items };
}

impl MemSpawner {
    /// A spawner that starts these links. `fail` holds the numbers of the starts that fail, counted from 1.
    pub fn new(_alloc: Global, links: Vec<MemLink>, fail: Vec<u64>) -> MemSpawner
        requires { All IsUnused links.items }
        ensures { result ≡ record { left = links.items; past = []; calls = no_calls fail.items } }
    {
        MemSpawner {
            links,
            past: Kept::new(),
            calls: Calls::new(fail),
        }
    }
}

impl Spawner for MemSpawner {
    type Link = StartedLink;

    ghost state = { mem_spawner };

    /// It fails exactly where `fail` holds the call's number or no link is left. A call that wants memory changes
    /// nothing, and has no number.
    fn start(&mut self, alloc: Global, _command: &[Vec<u8>]) -> Result<StartedLink, GetFault>
        ensures never_long { IsErrOf result GetFault.Long → ⊥ }
        ensures fresh { IfOk result IsUnused }
        ensures left { Takes (Some self.old.left) (Some self.new.left) (result_ok result) }
        ensures past { Recalls (Some self.old.past) (Some self.new.past) (start_kept result) }
        ensures cause { HasGetCause self.old.calls.faults self.new.calls.faults result }
        ensures listed { IsTrue (fails_next self.old.calls) → IsErr result }
        ensures failed { IsErrOf result GetFault.Failed → fails_next self.old.calls ≡ false → self.old.left ≡ [] }
        ensures wanted { IsErrOf result GetFault.NoMemory → self.new ≡ self.old }
        ensures started { IfOk result (λ _. self.new.calls ≡ called self.old.calls false) }
    {
        let room = Box::new(alloc, Kept::new())?;
        if !self.calls.fails_next()
            && let Some(link) = take_first(&mut self.links)
        {
            self.calls.count(false);
            return Ok(StartedLink { link, room });
        }
        self.past.add(room, Spawned::FailedStart);
        self.calls.count(true);
        Err(GetFault::Failed)
    }

    fn finish(&mut self, link: StartedLink)
        ensures left { self.new.left ≡ self.old.left }
        ensures past { self.new.past ≡ self.old.past ++ Spawned.HandedBack link.talk ∷ [] }
        ensures faults { self.new.calls ≡ (if nat_eq link.calls.faults 0 then self.old.calls else faulted self.old.calls) }
        ensures over { TakesOver self.old.calls.faults self.new.calls.faults link.calls.faults }
    {
        let StartedLink { link, room } = link;
        let (talk, faults) = link.end();
        self.past.add(room, Spawned::HandedBack(Talk::new(talk)));
        if faults != 0 {
            self.calls.fault();
        }
    }
}

/// A spawner that starts these links without a fault, and then ones over which no bytes come in.
#[derive(Debug, Drop)]
pub struct SoundSpawner {
    links: Vec<SoundLink>,
}

impl Model for SoundSpawner {
    ghost use Rattle.std.specs.Prelude.{List, ℕ};

    ghost Value = { List (List ℕ) };

    ghost view = { λ spawner. spawner.links.items };
}

impl SoundSpawner {
    /// A spawner that starts these links.
    pub fn new(links: Vec<SoundLink>) -> SoundSpawner
        ensures { result ≡ links.items }
    {
        SoundSpawner { links }
    }
}

impl Spawner for SoundSpawner {
    type Link = SoundLink;

    ghost state = { λ _. record { left = None; past = None; faults = 0 } };

    fn start(&mut self, alloc: Global, _command: &[Vec<u8>]) -> Result<SoundLink, GetFault>
        ensures { IsOkAnd result (SoundStarts self.old self.new) }
    {
        let Some(link) = take_first(&mut self.links) else {
            return Ok(SoundLink::new(Vec::new(alloc)));
        };
        Ok(link)
    }

    fn finish(&mut self, _link: SoundLink)
        ensures { self.new ≡ self.old }
    {}
}
