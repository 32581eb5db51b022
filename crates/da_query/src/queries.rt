// Reading queries.

ghost use Rattle.std.specs.Prelude.{◌≡◌, Some, None, IfOk};
ghost use Rattle.da_query.specs.Queries.{query_of, query_of_fields, query_with, user_query, check_query};
ghost use Rattle.da_base.specs.Words.{number};

use crate::left::FieldsLeft;
use da_fields::{Query, QueryKind, Text};
use da_tabline::decimal_u32;
use std::alloc::{AllocError, Global};

/// The query that the line spells: `PASS` or `USER`, and then its number, its database and the user; or `CHECK`, and then
/// the same and the password. `None` exactly where the line spells no query. Neither its length nor an LF in it counts.
#[tactic(auto, unfolding(crate::specs::Queries::query_of))]
pub fn read_query(alloc: Global, line: &[u8]) -> Result<Option<Query>, AllocError>
    ensures { IfOk result (λ query. query ≡ query_of line.now) }
{
    let mut fields = FieldsLeft::of(line);
    query_of_fields(alloc, &mut fields)
}

fn query_of_fields(alloc: Global, fields: &mut FieldsLeft<'_>) -> Result<Option<Query>, AllocError>
    ensures { IfOk result (λ query. query ≡ query_of_fields fields.old) }
{
    let Some(word) = fields.next(alloc)? else {
        return Ok(None);
    };
    let word = word.bytes();
    if word == b"PASS".as_slice() {
        user_query(alloc, QueryKind::Pass, fields)
    } else if word == b"USER".as_slice() {
        user_query(alloc, QueryKind::User, fields)
    } else if word == b"CHECK".as_slice() {
        check_query(alloc, fields)
    } else {
        Ok(None)
    }
}

fn user_query(
    alloc: Global,
    kind: QueryKind,
    fields: &mut FieldsLeft<'_>,
) -> Result<Option<Query>, AllocError>
    ensures { IfOk result (λ query. query ≡ user_query kind fields.old) }
{
    let Some(number) = fields.next(alloc)? else {
        return Ok(None);
    };
    let Some(db) = fields.next(alloc)? else {
        return Ok(None);
    };
    let Some(user) = fields.next(alloc)? else {
        return Ok(None);
    };
    if !fields.is_at_end() {
        return Ok(None);
    }
    Ok(query_with(kind, &number, &db, user, None))
}

fn check_query(alloc: Global, fields: &mut FieldsLeft<'_>) -> Result<Option<Query>, AllocError>
    ensures { IfOk result (λ query. query ≡ check_query fields.old) }
{
    let Some(number) = fields.next(alloc)? else {
        return Ok(None);
    };
    let Some(db) = fields.next(alloc)? else {
        return Ok(None);
    };
    let Some(user) = fields.next(alloc)? else {
        return Ok(None);
    };
    let Some(password) = fields.next(alloc)? else {
        return Ok(None);
    };
    if !fields.is_at_end() {
        return Ok(None);
    }
    Ok(query_with(QueryKind::Check, &number, &db, user, Some(password)))
}

fn query_with(
    kind: QueryKind,
    number_field: &Text,
    db_field: &Text,
    user: Text,
    password: Option<Text>,
) -> Option<Query>
    ensures { result ≡ query_with kind (number number_field.now) (number db_field.now) user password }
{
    let number = decimal_u32(number_field.bytes())?;
    let db = decimal_u32(db_field.bytes())?;
    Some(Query {
        number,
        kind,
        db,
        user,
        password,
    })
}
