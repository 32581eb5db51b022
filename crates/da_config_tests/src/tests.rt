use da_config::*;
use da_settings::Settings;
use std::alloc::Global;

/// A text that is no settings text, the place of its first fault, and the kind of it.
type Faulty = (&'static str, &'static str, FaultKind);

const OF_THE_TEXT: &[Faulty] = &[
    ("a =", "settings", FaultKind::NotToml),
    (
        "failure_delay = 1\nfailure_delay = 2",
        "settings",
        FaultKind::NotToml,
    ),
    ("colour = \"red\"", "colour", FaultKind::Unknown),
    (
        "zebra = 1\ncolour = 1\nserver_pid = -1",
        "colour",
        FaultKind::Unknown,
    ),
    ("Host = \"a\"", "Host", FaultKind::Unknown),
    ("[passdbs]", "passdbs", FaultKind::Unknown),
];

const OF_KIND: &[Faulty] = &[
    ("server_pid = \"1\"", "server_pid", FaultKind::Kind),
    ("host = 1", "host", FaultKind::Kind),
    ("mechanisms = \"PLAIN\"", "mechanisms", FaultKind::Kind),
    ("mechanisms = [\"PLAIN\", 1]", "mechanisms", FaultKind::Kind),
    (
        "username_chars = [\"a\"]",
        "username_chars",
        FaultKind::Kind,
    ),
    (
        "username_lower = \"true\"",
        "username_lower",
        FaultKind::Kind,
    ),
    (
        "master_separator = true",
        "master_separator",
        FaultKind::Kind,
    ),
    ("failure_delay = 0.0", "failure_delay", FaultKind::Kind),
    ("cache_size = []", "cache_size", FaultKind::Kind),
    ("cache_ttl = \"1h\"", "cache_ttl", FaultKind::Kind),
    (
        "cache_negative_ttl = 1979-05-27",
        "cache_negative_ttl",
        FaultKind::Kind,
    ),
    ("query_limit = true", "query_limit", FaultKind::Kind),
    (
        "request_limit = \"150 s\"",
        "request_limit",
        FaultKind::Kind,
    ),
    ("workers = \"2\"", "workers", FaultKind::Kind),
    ("worker_command = \"w\"", "worker_command", FaultKind::Kind),
    ("client_socket = 1", "client_socket", FaultKind::Kind),
    ("master_socket = 1", "master_socket", FaultKind::Kind),
    ("history_entries = 1.0", "history_entries", FaultKind::Kind),
    ("history_bytes = \"\"", "history_bytes", FaultKind::Kind),
    ("connections = [1]", "connections", FaultKind::Kind),
    ("passdb = 1", "passdb", FaultKind::Kind),
    ("[passdb]\ndriver = \"worker\"", "passdb", FaultKind::Kind),
    ("passdb = [1]", "passdb", FaultKind::Kind),
    ("userdb = [\"worker\"]", "userdb", FaultKind::Kind),
];

const OF_RANGE: &[Faulty] = &[
    ("server_pid = -1", "server_pid", FaultKind::Range),
    ("server_pid = 4294967296", "server_pid", FaultKind::Range),
    ("host = \"\"", "host", FaultKind::Range),
    ("host = \"a b\"", "host", FaultKind::Range),
    ("host = \"<a\"", "host", FaultKind::Range),
    ("host = \"a>\"", "host", FaultKind::Range),
    ("host = \"a@b\"", "host", FaultKind::Range),
    ("host = \"\\u007f\"", "host", FaultKind::Range),
    ("mechanisms = []", "mechanisms", FaultKind::Range),
    ("mechanisms = [\"plain\"]", "mechanisms", FaultKind::Range),
    (
        "mechanisms = [\"LOGIN\", \"PLAIN\", \"LOGIN\"]",
        "mechanisms",
        FaultKind::Range,
    ),
    ("username_chars = \"\"", "username_chars", FaultKind::Range),
    ("username_chars = \"ä\"", "username_chars", FaultKind::Range),
    (
        "master_separator = \"**\"",
        "master_separator",
        FaultKind::Range,
    ),
    (
        "master_separator = \"ä\"",
        "master_separator",
        FaultKind::Range,
    ),
    ("failure_delay = -1", "failure_delay", FaultKind::Range),
    ("failure_delay = 60001", "failure_delay", FaultKind::Range),
    ("cache_size = 100001", "cache_size", FaultKind::Range),
    ("cache_ttl = 86400001", "cache_ttl", FaultKind::Range),
    (
        "cache_negative_ttl = 86400001",
        "cache_negative_ttl",
        FaultKind::Range,
    ),
    ("query_limit = 0", "query_limit", FaultKind::Range),
    ("query_limit = 600001", "query_limit", FaultKind::Range),
    ("request_limit = 0", "request_limit", FaultKind::Range),
    ("request_limit = 600001", "request_limit", FaultKind::Range),
    ("workers = 0", "workers", FaultKind::Range),
    ("workers = 65", "workers", FaultKind::Range),
    (
        "worker_command = [\"\", \"\", \"\", \"\", \"\", \"\", \"\", \"\", \"\", \"\", \"\", \"\", \"\", \"\", \"\", \"\", \"\"]",
        "worker_command",
        FaultKind::Range,
    ),
    ("history_entries = 0", "history_entries", FaultKind::Range),
    (
        "history_entries = 500001",
        "history_entries",
        FaultKind::Range,
    ),
    ("history_bytes = 0", "history_bytes", FaultKind::Range),
    (
        "history_bytes = 268435457",
        "history_bytes",
        FaultKind::Range,
    ),
    ("connections = 0", "connections", FaultKind::Range),
    ("connections = 1001", "connections", FaultKind::Range),
    ("passdb = []", "passdb", FaultKind::Range),
    (
        "passdb = [{}, {}, {}, {}, {}, {}, {}, {}, {}, {}, {}, {}, {}, {}, {}, {}, {}]",
        "passdb",
        FaultKind::Range,
    ),
    (
        "userdb = [{}, {}, {}, {}, {}, {}, {}, {}, {}, {}, {}, {}, {}, {}, {}, {}, {}]",
        "userdb",
        FaultKind::Range,
    ),
];

const OF_DATABASES: &[Faulty] = &[
    ("[[passdb]]", "passdb[1].driver", FaultKind::Kind),
    (
        "[[passdb]]\ncolour = 1",
        "passdb[1].colour",
        FaultKind::Unknown,
    ),
    (
        "[[passdb]]\ndriver = \"worker\"\n[[passdb]]\ndriver = 1",
        "passdb[2].driver",
        FaultKind::Kind,
    ),
    (
        "[[passdb]]\ndriver = \"prefetch\"",
        "passdb[1].driver",
        FaultKind::Range,
    ),
    (
        "passdb = [{driver = \"worker\", args = 1}]",
        "passdb[1].args",
        FaultKind::Kind,
    ),
    (
        "passdb = [{driver = \"worker\", deny = 1}]",
        "passdb[1].deny",
        FaultKind::Kind,
    ),
    (
        "passdb = [{driver = \"worker\", master = 1}]",
        "passdb[1].master",
        FaultKind::Kind,
    ),
    (
        "passdb = [{driver = \"worker\", skip = 1}]",
        "passdb[1].skip",
        FaultKind::Kind,
    ),
    (
        "passdb = [{driver = \"worker\", skip = \"found\"}]",
        "passdb[1].skip",
        FaultKind::Range,
    ),
    (
        "passdb = [{driver = \"worker\", result_success = \"ok\"}]",
        "passdb[1].result_success",
        FaultKind::Range,
    ),
    (
        "passdb = [{driver = \"worker\", result_failure = []}]",
        "passdb[1].result_failure",
        FaultKind::Kind,
    ),
    (
        "passdb = [{driver = \"worker\", result_internalfail = \"Return\"}]",
        "passdb[1].result_internalfail",
        FaultKind::Range,
    ),
    (
        "passdb = [{driver = \"worker\", default_scheme = \"CRYPT\"}]",
        "passdb[1].default_scheme",
        FaultKind::Range,
    ),
    (
        "passdb = [{driver = \"worker\", username_filter = 1}]",
        "passdb[1].username_filter",
        FaultKind::Kind,
    ),
    (
        "passdb = [{driver = \"worker\", default_fields = \"a=b\"}]",
        "passdb[1].default_fields",
        FaultKind::Kind,
    ),
    (
        "passdb = [{driver = \"worker\", default_fields = [\"a\"]}]",
        "passdb[1].default_fields",
        FaultKind::Range,
    ),
    (
        "passdb = [{driver = \"worker\", default_fields = [\"=a\"]}]",
        "passdb[1].default_fields",
        FaultKind::Range,
    ),
    (
        "passdb = [{driver = \"worker\", override_fields = [\"a=b\", \"a=c\"]}]",
        "passdb[1].override_fields",
        FaultKind::Range,
    ),
    (
        "passdb = [{driver = \"worker\", override_fields = [\"a=%x\"]}]",
        "passdb[1].override_fields",
        FaultKind::Range,
    ),
    (
        "[[userdb]]\nskip = \"never\"",
        "userdb[1].driver",
        FaultKind::Kind,
    ),
    (
        "[[userdb]]\ndriver = \"checkpassword\"",
        "userdb[1].driver",
        FaultKind::Range,
    ),
    (
        "[[userdb]]\ndeny = true",
        "userdb[1].deny",
        FaultKind::Unknown,
    ),
    (
        "userdb = [{driver = \"worker\", skip = \"authenticated\"}]",
        "userdb[1].skip",
        FaultKind::Range,
    ),
    (
        "userdb = [{driver = \"worker\"}, {driver = \"worker\", override_fields = [\"a=%\"]}]",
        "userdb[2].override_fields",
        FaultKind::Range,
    ),
    (
        "passdb = [{driver = \"worker\", deny = true, master = true}]",
        "passdb[1].deny",
        FaultKind::Conflict,
    ),
    (
        "passdb = [{driver = \"worker\"}, {driver = \"checkpassword\", deny = true}]",
        "passdb[2].deny",
        FaultKind::Conflict,
    ),
];

/// Texts with more than one fault, of which the first is told.
const OF_TWO: &[Faulty] = &[
    ("colour = 1\na = ", "settings", FaultKind::NotToml),
    ("server_pid = -1\ncolour = 1", "colour", FaultKind::Unknown),
    ("host = 1\nserver_pid = -1", "server_pid", FaultKind::Range),
    (
        "request_limit = 0\nquery_limit = 0",
        "query_limit",
        FaultKind::Range,
    ),
    (
        "workers = 0\nrequest_limit = 0",
        "request_limit",
        FaultKind::Range,
    ),
    (
        "connections = 0\nworkers = \"\"",
        "workers",
        FaultKind::Kind,
    ),
    (
        "userdb = 1\n[[passdb]]\ncolour = 1",
        "userdb",
        FaultKind::Kind,
    ),
    ("userdb = 1\npassdb = []", "passdb", FaultKind::Range),
    (
        "passdb = [{skip = 1, colour = 1}]",
        "passdb[1].colour",
        FaultKind::Unknown,
    ),
    (
        "passdb = [{skip = 1, driver = 1}]",
        "passdb[1].driver",
        FaultKind::Kind,
    ),
    (
        "userdb = [{}]\npassdb = [{driver = \"worker\", skip = 1}]",
        "passdb[1].skip",
        FaultKind::Kind,
    ),
    (
        "userdb = [{}]\npassdb = [{driver = \"worker\", deny = true, master = true}]",
        "userdb[1].driver",
        FaultKind::Kind,
    ),
];

/// Texts that are settings: each range at its ends.
const RIGHT: &[&str] = &[
    "",
    "failure_delay = 0",
    "failure_delay = 60000",
    "server_pid = 0",
    "server_pid = 4294967295",
    "host = \"!~\"",
    "mechanisms = [\"SCRAM-SHA-256\", \"CRAM-MD5\", \"LOGIN\", \"PLAIN\"]",
    "username_chars = \"\\u0000\\u007f\"",
    "master_separator = \"\"",
    "cache_size = 100000\ncache_ttl = 86400000\ncache_negative_ttl = 0",
    "query_limit = 1",
    "query_limit = 600000",
    "request_limit = 1",
    "request_limit = 600000",
    "workers = 1",
    "workers = 64",
    "history_entries = 1\nhistory_bytes = 1\nconnections = 1",
    "history_entries = 500000\nhistory_bytes = 268435456\nconnections = 1000",
    "worker_command = [\"\", \"\", \"\", \"\", \"\", \"\", \"\", \"\", \"\", \"\", \"\", \"\", \"\", \"\", \"\", \"\"]",
    "userdb = []",
    "[[passdb]]\ndriver = \"checkpassword\"\nmaster = true",
    "[[passdb]]\ndriver = \"passwd-file\"\ndeny = true\ndefault_fields = [\"a==%%\", \"b=%u%n%d%s%r%l\"]",
];

/// The settings of `examples/settings/every-key.toml`, without its comments.
const EVERY_KEY: &str = "server_pid = 4711\n\
host = \"auth.example.org\"\n\
mechanisms = [\"SCRAM-SHA-256\", \"CRAM-MD5\", \"PLAIN\", \"LOGIN\"]\n\
username_chars = \"abcdefghijklmnopqrstuvwxyzABCDEFGHIJKLMNOPQRSTUVWXYZ0123456789.-_@+\"\n\
username_lower = true\n\
master_separator = \"*\"\n\
failure_delay = 2000\n\
cache_size = 1000\n\
cache_ttl = 3_600_000\n\
cache_negative_ttl = 60_000\n\
query_limit = 60_000\n\
request_limit = 150_000\n\
workers = 4\n\
worker_command = [\"bin/dauth\", \"worker\", \"examples/settings/every-key.toml\"]\n\
client_socket = \"run/client.sock\"\n\
master_socket = \"run/master.sock\"\n\
history_entries = 500_000\n\
history_bytes = 268_435_456\n\
connections = 1000\n\
[[passdb]]\n\
driver = \"passwd-file\"\n\
args = \"examples/settings/denied\"\n\
deny = true\n\
[[passdb]]\n\
driver = \"passwd-file\"\n\
args = \"examples/settings/masters\"\n\
master = true\n\
result_success = \"continue\"\n\
result_failure = \"return-fail\"\n\
result_internalfail = \"return-fail\"\n\
[[passdb]]\n\
driver = \"passwd-file\"\n\
args = \"examples/settings/users\"\n\
skip = \"never\"\n\
default_scheme = \"SSHA256\"\n\
username_filter = \"*@example.org\"\n\
default_fields = [\"mail=maildir:/var/mail/%d/%n\"]\n\
override_fields = [\"nologin=\"]\n\
[[userdb]]\n\
driver = \"prefetch\"\n\
skip = \"never\"\n\
[[userdb]]\n\
driver = \"passwd-file\"\n\
args = \"examples/settings/users\"\n\
skip = \"found\"\n\
result_success = \"return-ok\"\n\
result_failure = \"continue\"\n\
result_internalfail = \"continue\"\n\
default_fields = [\"uid=5000\", \"gid=5000\"]\n\
override_fields = [\"home=/home/%d/%n\"]\n";

fn is_told(alloc: Global, faulty: &Faulty) -> bool {
    match read(alloc, faulty.0.as_bytes()) {
        Err(ConfigFault::Bad(fault)) => {
            fault.place.bytes() == faulty.1.as_bytes() && fault.kind == faulty.2
        }
        _ => false,
    }
}

fn are_told(alloc: Global, table: &[Faulty]) -> bool {
    table.iter().all(|faulty| is_told(alloc, faulty))
}

#[test]
fn the_first_fault_is_told(rt: HostRuntime) {
    let alloc = rt.alloc();
    for table in [OF_THE_TEXT, OF_KIND, OF_RANGE, OF_DATABASES, OF_TWO] {
        assert!(rt; are_told(alloc, table));
    }
}

#[test]
fn each_range_has_its_ends(rt: HostRuntime) {
    let alloc = rt.alloc();
    for text in RIGHT {
        assert!(rt; read(alloc, text.as_bytes()).is_ok());
    }
}

fn has_its_counts(settings: &Settings) -> bool {
    settings.mechanisms.all().len() == 4
        && settings.passdb.all().len() == 3
        && settings.userdb.all().len() == 2
        && settings.workers == 4
}

#[test]
fn the_example_with_every_key_is_read(rt: HostRuntime) {
    let is_read = match read(rt.alloc(), EVERY_KEY.as_bytes()) {
        Ok(settings) => has_its_counts(&settings),
        Err(_) => false,
    };
    assert!(rt; is_read);
}
