// The databases of a server.
ghost use Rattle.std.specs.Prelude.{◌≡◌, ◌≤◌, ◌∷◌, ◌++◌, [], ℕ, true, length, option_map, Some, None, Result, IfOk, IfSome, OnOk};
ghost use Rattle.da_settings.specs.SettingsRanges.{has_conflict, first_conflict};
ghost use Rattle.da_settings.specs.DefaultSettings.{default_passdb};
ghost use Rattle.da_passdb.specs.LoginChain.{are_valid_passdbs};
ghost use Rattle.da_userdb.specs.UserChain.{are_valid_userdbs};
ghost use Rattle.toml.specs.Data.{Members};
ghost use Rattle.toml.specs.View.{items_view, table_view};
ghost use Rattle.da_config.specs.declared.fault.Fault.{Fault};
ghost use Rattle.da_config.specs.Reading.{IsRead, IsReadBy};
ghost use Rattle.da_config.specs.Parts.{AreTables, are_tables, tables_in};
ghost use Rattle.da_config.specs.Databases.{Fit, FitsPassdb, FitsUserdb, conflict_at, databases_from, front as spec_front, passdb_in, passdbs_of, unconflicted, userdb_in, userdbs_of};

use crate::fault::{ConfigFault, Fault, FaultKind};
use crate::part::TomlTable;
use crate::passdb::passdb;
use crate::userdb::userdb;
use da_fields::Text;
use da_passdb::{Driver, Passdb};
use da_settings::{Passdbs, Userdbs, default_passdb};
use da_userdb::Userdb;
use std::alloc::{AllocError, Global};
use toml::{Table, Value};

// How the places in the table of this number begin.
fn front(alloc: Global, array: &[u8], number: u32) -> Result<Vec<u8>, AllocError>
    ensures { IfOk result (λ front. front.items ≡ spec_front array.now number) }
{
    let mut front = Vec::from_slice(alloc, array)?;
    front.extend_from_slice(b"[")?;
    front.extend_from_slice(number.to_string(alloc)?.as_bytes())?;
    front.extend_from_slice(b"].")?;
    Ok(front)
}

fn push<D: Drop>(dbs: &mut Vec<D>, db: D) -> Result<(), AllocError>
    ensures { OnOk result (dbs.new.items ≡ dbs.old.items ++ db ∷ []) }
{
    dbs.push(db)?;
    Ok(())
}

/// A kind of database, of which each stands in a table of its own.
trait Database: Drop {
    /// What is found in the table of this number.
    ghost found: { ℕ → Members → Result Self Fault };

    /// What holds of the database of this number.
    ghost fits: { ℕ → Self → Type 0 };

    /// The database of this number, from its table.
    fn read(alloc: Global, table: &Table, number: u32) -> Result<Self, ConfigFault>
        ensures read { IsRead (found number (table_view table.now)) result }
        ensures fit { IfOk result (fits number) };
}

impl Database for Passdb {
    ghost found = { passdb_in };

    ghost fits = { FitsPassdb };

    fn read(alloc: Global, table: &Table, number: u32) -> Result<Passdb, ConfigFault> {
        let front = front(alloc, b"passdb", number)?;
        let part = TomlTable {
            table,
            front: &front,
        };
        passdb(alloc, &part, number)
    }
}

impl Database for Userdb {
    ghost found = { userdb_in };

    ghost fits = { FitsUserdb };

    fn read(alloc: Global, table: &Table, number: u32) -> Result<Userdb, ConfigFault> {
        let front = front(alloc, b"userdb", number)?;
        let part = TomlTable {
            table,
            front: &front,
        };
        userdb(alloc, &part, number)
    }
}

// The databases of these tables, numbered from 1 on.
fn read_databases<D: Database>(alloc: Global, array: &[Value]) -> Result<Vec<D>, ConfigFault>
    requires few { length array.now ≤ 16 }
    requires tables { are_tables (items_view array.now) ≡ true }
    ensures read { IsReadBy (λ dbs. dbs.items) (databases_from D.found 1 (tables_in (items_view array.now))) result }
    ensures all { IfOk result (λ dbs. length dbs.items ≡ length array.now) }
    ensures fit { IfOk result (λ dbs. Fit D.fits 1 dbs.items) }
{
    let mut dbs = Vec::new(alloc);
    for value in array {
        let Some(table) = value.as_table() else {
            continue;
        };
        let number = dbs.len() as u32 + 1;
        let db = D::read(alloc, table, number)?;
        push(&mut dbs, db)?;
    }
    Ok(dbs)
}

fn has_conflict(db: &Passdb) -> bool
    ensures { result ≡ has_conflict db.now }
{
    db.deny && (db.master || db.driver == Driver::Checkpassword)
}

// The number of the first database whose values conflict.
fn conflict(dbs: &[Passdb]) -> Option<u32>
    ensures { result ≡ option_map (λ db. db.number) (first_conflict dbs.now) }
{
    for db in dbs {
        if has_conflict(db) {
            return Some(db.number);
        }
    }
    None
}

fn told_conflict(alloc: Global, number: u32) -> Result<Fault, AllocError>
    ensures { IfOk result (λ fault. fault ≡ conflict_at number) }
{
    let mut place = front(alloc, b"passdb", number)?;
    place.extend_from_slice(b"deny")?;
    Ok(Fault {
        place: Text::new(place),
        kind: FaultKind::Conflict,
    })
}

/// The databases, where no two values of one conflict.
pub fn unconflicted(alloc: Global, dbs: Passdbs) -> Result<Passdbs, ConfigFault>
    ensures read { IsRead (unconflicted dbs) result }
    ensures same { IfOk result (λ same. same ≡ dbs) }
    ensures free { IfOk result (λ same. first_conflict same ≡ None) }
{
    match conflict(dbs.all()) {
        Some(number) => Err(ConfigFault::Bad(told_conflict(alloc, number)?)),
        None => Ok(dbs),
    }
}

fn default_passdbs(alloc: Global) -> Result<Passdbs, AllocError>
    ensures { IfOk result (λ dbs. dbs ≡ default_passdb 1 ∷ []) }
{
    Ok(Passdbs::new(vec![in alloc; default_passdb(alloc, 1)]?))
}

/// The password databases of these tables; without any, workers answer.
pub fn passdbs(alloc: Global, array: Option<&[Value]>) -> Result<Passdbs, ConfigFault>
    requires { IfSome array (AreTables 1) }
    ensures read { IsRead (passdbs_of (option_map (λ values. items_view values.now) array.entry)) result }
    ensures few { IfOk result (λ dbs. (1 ≤ length dbs) × (length dbs ≤ 16)) }
    ensures fit { IfOk result (λ dbs. are_valid_passdbs dbs ≡ true) }
{
    match array {
        Some(array) => Ok(Passdbs::new(read_databases(alloc, array)?)),
        None => Ok(default_passdbs(alloc)?),
    }
}

/// The user databases of these tables.
pub fn userdbs(alloc: Global, array: Option<&[Value]>) -> Result<Userdbs, ConfigFault>
    requires { IfSome array (AreTables 0) }
    ensures read { IsRead (userdbs_of (option_map (λ values. items_view values.now) array.entry)) result }
    ensures few { IfOk result (λ dbs. length dbs ≤ 16) }
    ensures fit { IfOk result (λ dbs. are_valid_userdbs dbs ≡ true) }
{
    match array {
        Some(array) => Ok(Userdbs::new(read_databases(alloc, array)?)),
        None => Ok(Userdbs::new(Vec::new(alloc))),
    }
}
