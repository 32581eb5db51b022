// Settings, and the goal of a run.

ghost use Rattle.std.specs.Prelude.{◌≡◌, IsTrue, IfOk};
ghost use Rattle.da_passdb.specs.LoginChain.{are_valid_passdbs};
ghost use Rattle.da_userdb.specs.UserChain.{are_valid_userdbs};

use crate::lists::{Mechs, Passdbs, Texts, Userdbs};
use da_fields::Text;
use da_passdb::Passdb;
use da_userdb::Userdb;
use std::alloc::{AllocError, Global};
use std::marker::Model;

/// The settings of a server. Each value is in its range, the lists of databases are valid, and no two values conflict:
/// whoever makes settings owes that.
#[derive(Drop)]
pub struct Settings {
    /// The process number that clients and masters are told.
    pub server_pid: u32,
    /// The name of this host, which stands in challenges.
    pub host: Text,
    /// The mechanisms that clients may use, in the order in which they are told.
    pub mechanisms: Mechs,
    /// The characters that user names may have.
    pub username_chars: Text,
    /// User names are made lower case.
    pub username_lower: bool,
    /// What stands between a user and a master in a user name.
    pub master_separator: Option<u8>,
    /// How long a failure is held back, in milliseconds.
    pub failure_delay: u64,
    /// How many keys the cache has at most.
    pub cache_size: u32,
    /// How long a stored password or a user's fields are used again, in milliseconds; 0 for never.
    pub cache_ttl: u64,
    /// How long it is believed that a user isn't there, in milliseconds; 0 for never.
    pub cache_negative_ttl: u64,
    /// How long a query may run, in milliseconds.
    pub query_limit: u64,
    /// How long a client's request may go without a decision, in milliseconds.
    pub request_limit: u64,
    /// How many workers there are.
    pub workers: u32,
    /// The program of a worker, and its arguments.
    pub worker_command: Texts,
    /// The paths of the sockets for clients and masters.
    pub client_socket: Text,
    pub master_socket: Text,
    /// How many entries and bytes a history may have.
    pub history_entries: u64,
    pub history_bytes: u64,
    /// How many connections may be open.
    pub connections: u32,
    pub passdb: Passdbs,
    pub userdb: Userdbs,
}

impl Model for Settings {
    ghost use Rattle.da_settings.specs.SettingsRanges.{SettingValues, AreInRange};

    ghost Value = { SettingValues };

    ghost view = { λ s. record { server_pid = s.server_pid; host = s.host; mechanisms = s.mechanisms; username_chars = s.username_chars; username_lower = s.username_lower; master_separator = s.master_separator; failure_delay = s.failure_delay; cache_size = s.cache_size; cache_ttl = s.cache_ttl; cache_negative_ttl = s.cache_negative_ttl; query_limit = s.query_limit; request_limit = s.request_limit; workers = s.workers; worker_command = s.worker_command; client_socket = s.client_socket; master_socket = s.master_socket; history_entries = s.history_entries; history_bytes = s.history_bytes; connections = s.connections; passdb = s.passdb; userdb = s.userdb } };

    ghost invariant = { λ s. AreInRange (record { server_pid = s.server_pid; host = s.host; mechanisms = s.mechanisms; username_chars = s.username_chars; username_lower = s.username_lower; master_separator = s.master_separator; failure_delay = s.failure_delay; cache_size = s.cache_size; cache_ttl = s.cache_ttl; cache_negative_ttl = s.cache_negative_ttl; query_limit = s.query_limit; request_limit = s.request_limit; workers = s.workers; worker_command = s.worker_command; client_socket = s.client_socket; master_socket = s.master_socket; history_entries = s.history_entries; history_bytes = s.history_bytes; connections = s.connections; passdb = s.passdb; userdb = s.userdb }) };
}

impl Settings {
    /// The password databases, which are valid.
    pub fn passdbs(&self) -> &[Passdb]
        ensures all { result.now ≡ self.now.passdb }
        ensures valid { IsTrue (are_valid_passdbs result.now) }
    {
        self.passdb.all()
    }

    /// The user databases, which are valid.
    pub fn userdbs(&self) -> &[Userdb]
        ensures all { result.now ≡ self.now.userdb }
        ensures valid { IsTrue (are_valid_userdbs result.now) }
    {
        self.userdb.all()
    }

    /// Equal settings.
    pub fn copy(&self, alloc: Global) -> Result<Settings, AllocError>
        ensures { IfOk result (λ settings. settings ≡ self.now) }
    {
        let texts = self.texts(alloc)?;
        let lists = self.lists(alloc)?;
        Ok(Settings {
            server_pid: self.server_pid,
            host: texts.host,
            mechanisms: lists.mechanisms,
            username_chars: texts.username_chars,
            username_lower: self.username_lower,
            master_separator: self.master_separator,
            failure_delay: self.failure_delay,
            cache_size: self.cache_size,
            cache_ttl: self.cache_ttl,
            cache_negative_ttl: self.cache_negative_ttl,
            query_limit: self.query_limit,
            request_limit: self.request_limit,
            workers: self.workers,
            worker_command: lists.worker_command,
            client_socket: texts.client_socket,
            master_socket: texts.master_socket,
            history_entries: self.history_entries,
            history_bytes: self.history_bytes,
            connections: self.connections,
            passdb: lists.passdb,
            userdb: lists.userdb,
        })
    }

    // Copies of its texts.
    fn texts(&self, alloc: Global) -> Result<SettingTexts, AllocError>
        ensures { IfOk result (λ texts. texts ≡ record { host = self.now.host; username_chars = self.now.username_chars; client_socket = self.now.client_socket; master_socket = self.now.master_socket }) }
    {
        Ok(SettingTexts {
            host: self.host.copy(alloc)?,
            username_chars: self.username_chars.copy(alloc)?,
            client_socket: self.client_socket.copy(alloc)?,
            master_socket: self.master_socket.copy(alloc)?,
        })
    }

    // Copies of its lists.
    fn lists(&self, alloc: Global) -> Result<SettingLists, AllocError>
        ensures { IfOk result (λ lists. lists ≡ record { mechanisms = self.now.mechanisms; worker_command = self.now.worker_command; passdb = self.now.passdb; userdb = self.now.userdb }) }
    {
        Ok(SettingLists {
            mechanisms: self.mechanisms.copy(alloc)?,
            worker_command: self.worker_command.copy(alloc)?,
            passdb: self.passdb.copy(alloc)?,
            userdb: self.userdb.copy(alloc)?,
        })
    }
}

// The texts of settings, while they are copied.
#[derive(Drop)]
struct SettingTexts {
    host: Text,
    username_chars: Text,
    client_socket: Text,
    master_socket: Text,
}

// The lists of settings, while they are copied.
#[derive(Drop)]
struct SettingLists {
    mechanisms: Mechs,
    worker_command: Texts,
    passdb: Passdbs,
    userdb: Userdbs,
}

/// A run is over once so many connections of each kind were opened and none is open.
#[derive(Clone, Copy, Drop, PartialEq, Eq)]
pub struct Goal {
    pub clients: u32,
    pub masters: u32,
}
