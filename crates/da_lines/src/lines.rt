// What a line of a connection does.

ghost use Rattle.std.specs.Prelude.{◌≡◌, ◌<◌, ◌^◌, ◌-◌, IfOk, length, ℕ};
ghost use Rattle.da_base.specs.Words.{nth, passes_option, Bytes};
ghost use Rattle.da_lines.specs.Bridges.{after_meaning};
ghost use Rattle.da_lines.specs.Lines.{is_cancellable, continues, cancels, after_client_message, after_master_message, client_line, master_line, line_on};
ghost use Rattle.da_msgs.specs.ClientMessages.{client_message};
ghost use Rattle.da_msgs.specs.MasterMessages.{master_message};
ghost use Rattle.da_request.specs.Requests.{is_awaiting};
ghost use Rattle.da_settings.specs.declared.settings.Settings.{Settings};
ghost use Rattle.da_tables.specs.Bridges.{with_effect};

use crate::grants::granted;
use da_fields::Text;
use da_msgs::{ClientMsg, MasterMsg};
use da_request::{Body, Request, new_request};
use da_settings::{Settings, Texts};
use da_tables::{Connection, InputEffect, Tables};
use std::alloc::{AllocError, Global};

/// What a line does, once it is read and it is known whether it may stand where it stands.
#[derive(Drop)]
pub enum LineMeaning {
    /// It is ignored: its connection isn't open.
    Ignored,
    /// It closes its connection.
    Closes,
    /// It is this message of a client.
    Client(ClientMsg),
    /// It is this message of a master.
    Master(MasterMsg),
}

fn is_awaiting(
    tables: &Tables,
    alloc: Global,
    settings: &Settings,
    number: u32,
) -> Result<bool, AllocError>
    ensures { IfOk result (λ awaiting. awaiting ≡ passes_option (is_awaiting settings.now) (nth tables.now.requests number)) }
{
    match tables.request(number) {
        Some(request) => request.is_awaiting(alloc, settings),
        None => Ok(false),
    }
}

fn is_cancellable(
    tables: &Tables,
    alloc: Global,
    settings: &Settings,
    number: u32,
    request: &Request,
) -> Result<bool, AllocError>
    ensures { IfOk result (λ may. may ≡ is_cancellable settings.now tables.now number request.now) }
{
    if request.is_pending() {
        return Ok(true);
    }
    if request.is_cancelled || tables.is_used(number) {
        return Ok(false);
    }
    request.has_succeeded(alloc, settings)
}

fn may_cancel(
    tables: &Tables,
    alloc: Global,
    settings: &Settings,
    number: u32,
) -> Result<bool, AllocError>
    ensures { IfOk result (λ may. may ≡ passes_option (is_cancellable settings.now tables.now number) (nth tables.now.requests number)) }
{
    match tables.request(number) {
        Some(request) => is_cancellable(tables, alloc, settings, number, request),
        None => Ok(false),
    }
}

/// A message is that of a request that awaits one, and is ignored elsewhere.
fn continues(
    tables: &mut Tables,
    alloc: Global,
    settings: &Settings,
    number: u32,
    text: Text,
) -> Result<InputEffect, AllocError>
    ensures { IfOk result (λ h. with_effect tables.new h ≡ continues settings.now number text tables.old) }
{
    if is_awaiting(tables, alloc, settings, number)? {
        tables.push_text(number, text)?;
        Ok(InputEffect::continuing(number))
    } else {
        Ok(InputEffect::continuing_none())
    }
}

fn cancels(
    tables: &mut Tables,
    alloc: Global,
    settings: &Settings,
    number: u32,
) -> Result<InputEffect, AllocError>
    ensures { IfOk result (λ h. with_effect tables.new h ≡ cancels settings.now number tables.old) }
{
    if may_cancel(tables, alloc, settings, number)? {
        tables.cancel(number);
    }
    Ok(InputEffect::continuing_none())
}

fn apply_client_message(
    tables: &mut Tables,
    alloc: Global,
    settings: &Settings,
    moment: u64,
    conn: u32,
    random: &[u8; 16],
    message: ClientMsg,
) -> Result<InputEffect, AllocError>
    requires { length tables.old.requests < 2 ^ 32 - 1 }
    ensures { IfOk result (λ h. with_effect tables.new h ≡ after_client_message settings.now moment conn random.now message tables.old) }
{
    match message {
        ClientMsg::Version { minor, .. } => tables.set_version(conn, minor),
        ClientMsg::Pid { pid } => tables.set_pid(conn, pid),
        ClientMsg::Auth {
            id,
            mech,
            params,
            resp,
        } => {
            let texts = Texts::new(Vec::new(alloc));
            let body = Body::Authenticates {
                mech,
                params,
                resp,
                texts,
            };
            return tables.add_request(new_request(alloc, moment, conn, id, random, body));
        }
        ClientMsg::Cont { id, text } => {
            let number = tables.request_number(conn, id);
            return continues(tables, alloc, settings, number, text);
        }
        ClientMsg::Cancel { id } => {
            let number = tables.request_number(conn, id);
            return cancels(tables, alloc, settings, number);
        }
        ClientMsg::Other => {}
    }
    Ok(InputEffect::continuing_none())
}

fn apply_master_message(
    tables: &mut Tables,
    alloc: Global,
    settings: &Settings,
    moment: u64,
    conn: u32,
    random: &[u8; 16],
    message: MasterMsg,
) -> Result<InputEffect, AllocError>
    requires requests { length tables.old.requests < 2 ^ 32 - 1 }
    requires connections { length tables.old.connections < 2 ^ 32 - 1 }
    ensures { IfOk result (λ h. with_effect tables.new h ≡ after_master_message settings.now moment conn random.now message tables.old) }
{
    match message {
        MasterMsg::Version { minor, .. } => tables.set_version(conn, minor),
        MasterMsg::Request {
            id,
            pid,
            client,
            cookie,
        } => {
            let grant = granted(tables, alloc, settings, moment, pid, client, cookie.bytes())?;
            let body = Body::LooksUp(grant);
            return tables.add_request(new_request(alloc, moment, conn, id, random, body));
        }
        MasterMsg::Other => {}
    }
    Ok(InputEffect::continuing_none())
}

/// What a line of a client does on its open connection.
fn client_line_meaning(
    tables: &Tables,
    alloc: Global,
    conn: u32,
    connection: &Connection,
    text: &[u8],
) -> Result<LineMeaning, AllocError>
    requires { length tables.now.requests < 2 ^ 32 - 1 }
    ensures { IfOk result (λ o. (settings : Settings) (moment : ℕ) (random : Bytes) → after_meaning settings moment conn random o tables.now ≡ client_line settings moment conn random connection.now (client_message text.now) tables.now) }
{
    match ClientMsg::read(alloc, text)? {
        Some(message) if tables.client_may(conn, connection, &message) => {
            Ok(LineMeaning::Client(message))
        }
        _ => Ok(LineMeaning::Closes),
    }
}

/// What a line of a master does on its open connection.
fn master_line_meaning(
    tables: &Tables,
    alloc: Global,
    conn: u32,
    connection: &Connection,
    text: &[u8],
) -> Result<LineMeaning, AllocError>
    requires { length tables.now.requests < 2 ^ 32 - 1 }
    ensures { IfOk result (λ o. (settings : Settings) (moment : ℕ) (random : Bytes) → after_meaning settings moment conn random o tables.now ≡ master_line settings moment conn random connection.now (master_message text.now) tables.now) }
{
    match MasterMsg::read(alloc, text)? {
        Some(message) if tables.master_may(conn, connection, &message) => {
            Ok(LineMeaning::Master(message))
        }
        _ => Ok(LineMeaning::Closes),
    }
}

/// What a line does.
fn line_meaning(
    tables: &Tables,
    alloc: Global,
    conn: u32,
    text: &[u8],
) -> Result<LineMeaning, AllocError>
    requires { length tables.now.requests < 2 ^ 32 - 1 }
    ensures { IfOk result (λ o. (settings : Settings) (moment : ℕ) (random : Bytes) → after_meaning settings moment conn random o tables.now ≡ line_on settings moment conn text.now random (nth tables.now.connections conn) tables.now) }
{
    let Some(connection) = tables.connection(conn) else {
        return Ok(LineMeaning::Ignored);
    };
    if !connection.is_open {
        return Ok(LineMeaning::Ignored);
    }
    if connection.is_of_client() {
        client_line_meaning(tables, alloc, conn, connection, text)
    } else {
        master_line_meaning(tables, alloc, conn, connection, text)
    }
}

fn apply_meaning(
    tables: &mut Tables,
    alloc: Global,
    settings: &Settings,
    moment: u64,
    conn: u32,
    random: &[u8; 16],
    meaning: LineMeaning,
) -> Result<InputEffect, AllocError>
    requires requests { length tables.old.requests < 2 ^ 32 - 1 }
    requires connections { length tables.old.connections < 2 ^ 32 - 1 }
    ensures { IfOk result (λ h. with_effect tables.new h ≡ after_meaning settings.now moment conn random.now meaning tables.old) }
{
    match meaning {
        LineMeaning::Ignored => Ok(InputEffect::continuing_none()),
        LineMeaning::Closes => {
            tables.end(conn);
            Ok(InputEffect::closing(conn))
        }
        LineMeaning::Client(message) => {
            apply_client_message(tables, alloc, settings, moment, conn, random, message)
        }
        LineMeaning::Master(message) => {
            apply_master_message(tables, alloc, settings, moment, conn, random, message)
        }
    }
}

/// A line of a connection: one that spells no message, or one that may not stand there, closes its connection.
pub fn line(
    tables: &mut Tables,
    alloc: Global,
    settings: &Settings,
    moment: u64,
    conn: u32,
    text: &[u8],
    random: &[u8; 16],
) -> Result<InputEffect, AllocError>
    requires requests { length tables.old.requests < 2 ^ 32 - 1 }
    requires connections { length tables.old.connections < 2 ^ 32 - 1 }
    ensures { IfOk result (λ h. with_effect tables.new h ≡ line_on settings.now moment conn text.now random.now (nth tables.old.connections conn) tables.old) }
{
    let meaning = line_meaning(tables, alloc, conn, text)?;
    apply_meaning(tables, alloc, settings, moment, conn, random, meaning)
}
