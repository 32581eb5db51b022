// The settings of a server in groups, in the order in which their keys are looked at.
use da_fields::Text;
use da_settings::{Mechs, Passdbs, Texts, Userdbs};

/// Who the server is, and which names it takes.
#[derive(Drop)]
pub struct NameSettings {
    pub server_pid: u32,
    pub host: Text,
    pub mechanisms: Mechs,
    pub username_chars: Text,
    pub username_lower: bool,
    pub master_separator: Option<u8>,
}

/// Durations of time in milliseconds, and the size of the cache.
#[derive(Drop)]
pub struct Durations {
    pub failure_delay: u64,
    pub cache_size: u32,
    pub cache_ttl: u64,
    pub cache_negative_ttl: u64,
    pub query_limit: u64,
    pub request_limit: u64,
}

/// The workers, and the sockets of clients and masters.
#[derive(Drop)]
pub struct Workers {
    pub workers: u32,
    pub worker_command: Texts,
    pub client_socket: Text,
    pub master_socket: Text,
}

/// How much a history may hold, and how many connections may be open.
#[derive(Drop)]
pub struct Limits {
    pub history_entries: u64,
    pub history_bytes: u64,
    pub connections: u32,
}

/// The databases.
#[derive(Drop)]
pub struct Databases {
    pub passdb: Passdbs,
    pub userdb: Userdbs,
}
