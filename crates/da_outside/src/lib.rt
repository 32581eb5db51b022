//! What the service reaches outside of itself, as traits: sources and sinks of bytes, files, links to workers and what
//! starts them, programs that are run, sockets that connections come in at, clocks, random bytes and rests. The `state`
//! of an object is one record: what it holds or has left, as far as the object tells that, and how often it failed. That
//! count never falls, and a call answers that it failed only where the count rose in that call, or stands at its last
//! value. So code that is generic over a trait can't make a fault up.
//!
//! Each trait with faults has two forms in memory. One with the prefix `Mem` holds its contents and a list of the calls
//! that fail. One with the prefix `Sound` never fails. The streams with the prefix `Slow` pass a few bytes a call.
#![tactic(auto)]

mod bytes;
mod calls;
mod clock;
mod crew;
mod faults;
mod files;
mod first;
mod kept;
mod link;
mod listen;
mod pause;
mod rand;
mod rest;
mod runner;
mod sink;
mod slow;
mod source;
mod spawner;

pub use bytes::Bytes;
pub use clock::{Clock, SetClock};
pub use crew::{Crew, SoundCrew};
pub use faults::{Failed, GetFault, Got};
pub use files::{FileRead, Files, MemFiles, SoundFiles};
pub use link::{Link, MemLink, SoundLink, Spoken};
pub use listen::{Listen, MemListen, SoundListen};
pub use pause::{NoPause, Pause};
pub use rand::{Rand, SetRand};
pub use runner::{Exit, MemRunner, Run, Runner, SoundRunner};
pub use sink::{MemSink, Sink, SoundSink};
pub use slow::{SlowSink, SlowSource};
pub use source::{MemSource, SoundSource, Source};
pub use spawner::{MemSpawner, SoundSpawner, Spawned, Spawner, StartedLink, Talk};
