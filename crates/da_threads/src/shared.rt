// What the threads of a service share.

use da_port::Port;
use da_settings::Settings;
use std::alloc::Global;

/// What the threads of a service share. A closure takes it as `Shared { ..self }`: so it captures field by field, and what it
/// ensures is known where it is called, which it isn't of a struct with references that is captured as a whole.
#[derive(Drop)]
#[derive_where(Clone, Copy)]
pub struct Shared<'s, R, C, Z> {
    pub rt: &'s R,
    pub alloc: Global,
    pub port: &'s Port,
    pub settings: &'s Settings,
    pub clock: &'s C,
    pub pause: &'s Z,
}
