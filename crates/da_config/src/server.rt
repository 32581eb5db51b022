// The table of the whole document, in parts: its keys in their order, each with its range and what stands where it is
// missing.
ghost use Rattle.std.specs.Prelude.{◌≡◌, ◌≤◌, true, length, IfOk, IfSome};
ghost use Rattle.std.specs.List.{list_all};
ghost use Rattle.da_settings.specs.SettingsRanges.{are_name_characters, is_ascii, is_host, is_host_character};
ghost use Rattle.da_config.specs.Reading.{IsRead};
ghost use Rattle.da_config.specs.Parts.{part_of};
ghost use Rattle.da_config.specs.Servers.{DatabasesFit, LimitsFit, NamesFit, SpansFit, WorkersFit, command_of, databases_of, host_of, limits_of, names_of, separator_in, separator_of, settings_in, spans_of, username_chars_of, workers_of};

use crate::databases::{passdbs, unconflicted, userdbs};
use crate::fault::{ConfigFault, FaultKind};
use crate::groups::{Databases, Durations, Limits, NameSettings, Workers};
use crate::mechanisms::mechanisms;
use crate::part::TomlTable;
use da_fields::Text;
use da_settings::{Settings, Texts};
use std::alloc::Global;

const KEYS: [&str; 21] = [
    "server_pid",
    "host",
    "mechanisms",
    "username_chars",
    "username_lower",
    "master_separator",
    "failure_delay",
    "cache_size",
    "cache_ttl",
    "cache_negative_ttl",
    "query_limit",
    "request_limit",
    "workers",
    "worker_command",
    "client_socket",
    "master_socket",
    "history_entries",
    "history_bytes",
    "connections",
    "passdb",
    "userdb",
];

const USERNAME_CHARS: &[u8] = b"abcdefghijklmnopqrstuvwxyzABCDEFGHIJKLMNOPQRSTUVWXYZ0123456789.-_@";

// ---- names

fn is_host_character(byte: u8) -> bool
    ensures { result ≡ is_host_character byte }
{
    33 <= byte && byte <= 126 && byte != b'<' && byte != b'>' && byte != b'@'
}

fn are_host_characters(text: &[u8]) -> bool
    ensures { result ≡ list_all is_host_character text.now }
{
    text.iter().all(|byte| is_host_character(*byte))
}

fn is_host(text: &[u8]) -> bool
    ensures { result ≡ is_host text.now }
{
    1 <= text.len() && text.len() <= 255 && are_host_characters(text)
}

fn are_ascii(text: &[u8]) -> bool
    ensures { result ≡ list_all is_ascii text.now }
{
    text.iter().all(|byte| *byte < 128)
}

fn are_name_characters(text: &[u8]) -> bool
    ensures { result ≡ are_name_characters text.now }
{
    1 <= text.len() && text.len() <= 255 && are_ascii(text)
}

fn host(alloc: Global, part: &TomlTable<'_>) -> Result<Text, ConfigFault>
    ensures read { IsRead (host_of (part_of part.now)) result }
    ensures fit { IfOk result (λ text. is_host text ≡ true) }
{
    let text = part.text(alloc, "host", b"localhost")?;
    if !is_host(text.bytes()) {
        return Err(part.fault(alloc, "host", FaultKind::Range));
    }
    Ok(text)
}

fn username_chars(alloc: Global, part: &TomlTable<'_>) -> Result<Text, ConfigFault>
    ensures read { IsRead (username_chars_of (part_of part.now)) result }
    ensures fit { IfOk result (λ text. are_name_characters text ≡ true) }
{
    let text = part.text(alloc, "username_chars", USERNAME_CHARS)?;
    if !are_name_characters(text.bytes()) {
        return Err(part.fault(alloc, "username_chars", FaultKind::Range));
    }
    Ok(text)
}

// The separator that a text is; none where it is empty.
fn separator_in(text: &[u8]) -> Option<Option<u8>>
    ensures { result ≡ separator_in text.now }
{
    match text {
        [] => Some(None),
        [character] if *character < 128 => Some(Some(*character)),
        _ => None,
    }
}

fn separator(alloc: Global, part: &TomlTable<'_>) -> Result<Option<u8>, ConfigFault>
    ensures read { IsRead (separator_of (part_of part.now)) result }
    ensures fit { IfOk result (λ found. IfSome found (λ c. is_ascii c ≡ true)) }
{
    let text = part.text(alloc, "master_separator", b"")?;
    match separator_in(text.bytes()) {
        Some(separator) => Ok(separator),
        None => Err(part.fault(alloc, "master_separator", FaultKind::Range)),
    }
}

fn names(alloc: Global, part: &TomlTable<'_>) -> Result<NameSettings, ConfigFault>
    ensures read { IsRead (names_of (part_of part.now)) result }
    ensures fit { IfOk result NamesFit }
{
    Ok(NameSettings {
        server_pid: part.number(alloc, "server_pid", 0, 4_294_967_295, 1)? as u32,
        host: host(alloc, part)?,
        mechanisms: mechanisms(alloc, part)?,
        username_chars: username_chars(alloc, part)?,
        username_lower: part.flag(alloc, "username_lower", true)?,
        master_separator: separator(alloc, part)?,
    })
}

// ---- the rest

fn spans(alloc: Global, part: &TomlTable<'_>) -> Result<Durations, ConfigFault>
    ensures read { IsRead (spans_of (part_of part.now)) result }
    ensures fit { IfOk result SpansFit }
{
    Ok(Durations {
        failure_delay: part.number(alloc, "failure_delay", 0, 60_000, 2_000)?,
        cache_size: part.number(alloc, "cache_size", 0, 100_000, 0)? as u32,
        cache_ttl: part.number(alloc, "cache_ttl", 0, 86_400_000, 3_600_000)?,
        cache_negative_ttl: part.number(alloc, "cache_negative_ttl", 0, 86_400_000, 3_600_000)?,
        query_limit: part.number(alloc, "query_limit", 1, 600_000, 60_000)?,
        request_limit: part.number(alloc, "request_limit", 1, 600_000, 150_000)?,
    })
}

fn command(alloc: Global, part: &TomlTable<'_>) -> Result<Texts, ConfigFault>
    ensures read { IsRead (command_of (part_of part.now)) result }
    ensures fit { IfOk result (λ texts. length texts ≤ 16) }
{
    let texts = part.texts(alloc, "worker_command", Texts::new(Vec::new(alloc)))?;
    if texts.all().len() > 16 {
        return Err(part.fault(alloc, "worker_command", FaultKind::Range));
    }
    Ok(texts)
}

fn workers(alloc: Global, part: &TomlTable<'_>) -> Result<Workers, ConfigFault>
    ensures read { IsRead (workers_of (part_of part.now)) result }
    ensures fit { IfOk result WorkersFit }
{
    Ok(Workers {
        workers: part.number(alloc, "workers", 1, 64, 2)? as u32,
        worker_command: command(alloc, part)?,
        client_socket: part.text(alloc, "client_socket", b"client.sock")?,
        master_socket: part.text(alloc, "master_socket", b"master.sock")?,
    })
}

fn limits(alloc: Global, part: &TomlTable<'_>) -> Result<Limits, ConfigFault>
    ensures read { IsRead (limits_of (part_of part.now)) result }
    ensures fit { IfOk result LimitsFit }
{
    Ok(Limits {
        history_entries: part.number(alloc, "history_entries", 1, 500_000, 500_000)?,
        history_bytes: part.number(alloc, "history_bytes", 1, 268_435_456, 268_435_456)?,
        connections: part.number(alloc, "connections", 1, 1_000, 1_000)? as u32,
    })
}

fn databases(alloc: Global, part: &TomlTable<'_>) -> Result<Databases, ConfigFault>
    ensures read { IsRead (databases_of (part_of part.now)) result }
    ensures fit { IfOk result DatabasesFit }
{
    let password_tables = part.tables(alloc, "passdb", 1)?;
    let user_tables = part.tables(alloc, "userdb", 0)?;
    let passdb = passdbs(alloc, password_tables)?;
    let userdb = userdbs(alloc, user_tables)?;
    let passdb = unconflicted(alloc, passdb)?;
    Ok(Databases { passdb, userdb })
}

/// The settings that the table of the whole document says.
pub fn settings(alloc: Global, part: &TomlTable<'_>) -> Result<Settings, ConfigFault>
    ensures { IsRead (settings_in (part_of part.now)) result }
{
    part.check_keys(alloc, &KEYS)?;
    let names = names(alloc, part)?;
    let spans = spans(alloc, part)?;
    let workers = workers(alloc, part)?;
    let limits = limits(alloc, part)?;
    let databases = databases(alloc, part)?;
    Ok(Settings {
        server_pid: names.server_pid,
        host: names.host,
        mechanisms: names.mechanisms,
        username_chars: names.username_chars,
        username_lower: names.username_lower,
        master_separator: names.master_separator,
        failure_delay: spans.failure_delay,
        cache_size: spans.cache_size,
        cache_ttl: spans.cache_ttl,
        cache_negative_ttl: spans.cache_negative_ttl,
        query_limit: spans.query_limit,
        request_limit: spans.request_limit,
        workers: workers.workers,
        worker_command: workers.worker_command,
        client_socket: workers.client_socket,
        master_socket: workers.master_socket,
        history_entries: limits.history_entries,
        history_bytes: limits.history_bytes,
        connections: limits.connections,
        passdb: databases.passdb,
        userdb: databases.userdb,
    })
}
