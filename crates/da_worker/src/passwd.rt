// The passwd-file.

ghost use Rattle.std.specs.Prelude.{◌≡◌, IfOk, OnOk, option_copied};
ghost use Rattle.da_base.specs.Words.{before_byte};
ghost use Rattle.da_worker.specs.Passwd.{behind_colon, password_column, uid_column, gid_column, home_column, extra_column};
ghost use Rattle.da_worker.specs.Passwd.{is_line_of, is_passed_over, user_line, with_item, with_filled, extra_fields, account_fields, user_fields, answer_of_line, row};

use da_fields::{Answer, Fields, Query, QueryKind, Text, Why, merge, userdb_part};
use da_tabline::{key_and_value, split_at_byte};
use std::alloc::{AllocError, Global};

// The columns of a line that answers are made of.
#[derive(Clone, Copy, Drop)]
struct Columns<'a> {
    password: &'a [u8],
    uid: &'a [u8],
    gid: &'a [u8],
    home: &'a [u8],
    extra: &'a [u8],
}

// What stands before the first colon, and what stands behind it.
fn cut_at_colon(text: &[u8]) -> (&[u8], &[u8])
    ensures column { result.0.now ≡ before_byte 58 text.now }
    ensures behind { result.1.now ≡ behind_colon text.now }
{
    match split_at_byte(text, b':') {
        Some((column, behind)) => (column, behind),
        None => (text, &text[text.len()..]),
    }
}

fn columns_of(line: &[u8]) -> Columns<'_>
    ensures password { result.password.now ≡ password_column line.now }
    ensures uid { result.uid.now ≡ uid_column line.now }
    ensures gid { result.gid.now ≡ gid_column line.now }
    ensures home { result.home.now ≡ home_column line.now }
    ensures extra { result.extra.now ≡ extra_column line.now }
{
    let (_, rest) = cut_at_colon(line);
    let (password, rest) = cut_at_colon(rest);
    let (uid, rest) = cut_at_colon(rest);
    let (gid, rest) = cut_at_colon(rest);
    let (_, rest) = cut_at_colon(rest);
    let (home, rest) = cut_at_colon(rest);
    let (_, extra) = cut_at_colon(rest);
    Columns {
        password,
        uid,
        gid,
        home,
        extra,
    }
}

fn is_passed_over(line: &[u8]) -> bool
    ensures { result ≡ is_passed_over line.now }
{
    line.is_empty() || line[0] == b'#'
}

fn is_line_of(user: &[u8], line: &[u8]) -> bool
    ensures { result ≡ is_line_of user.now line.now }
{
    !is_passed_over(line) && cut_at_colon(line).0 == user
}

// The first line of the user.
fn user_line<'a>(user: &[u8], file: &'a [u8]) -> Option<&'a [u8]>
    ensures { option_copied result ≡ user_line user.now file.now }
{
    let mut rest = file;
    'lines: while let Some((line, more)) = split_at_byte(rest, b'\n') {
        if is_line_of(user, line) {
            return Some(line);
        }
        rest = more;
    }
    if is_line_of(user, rest) {
        Some(rest)
    } else {
        None
    }
}

fn set(fields: &mut Fields, alloc: Global, key: &[u8], value: &[u8]) -> Result<(), AllocError>
    ensures { OnOk result (fields.new ≡ with_field key.now value.now fields.old) }
{
    fields.set(
        Text::from_slice(alloc, key)?,
        Text::from_slice(alloc, value)?,
    )
}

ghost use Rattle.da_fields.specs.FieldList.{with_field};

fn put_item(fields: &mut Fields, alloc: Global, item: &[u8]) -> Result<(), AllocError>
    ensures { OnOk result (fields.new ≡ with_item item.now fields.old) }
{
    let (key, value) = key_and_value(item);
    if key.is_empty() {
        return Ok(());
    }
    set(fields, alloc, key, value)
}

fn put_filled(
    fields: &mut Fields,
    alloc: Global,
    key: &[u8],
    value: &[u8],
) -> Result<(), AllocError>
    ensures { OnOk result (fields.new ≡ with_filled key.now value.now fields.old) }
{
    if value.is_empty() {
        return Ok(());
    }
    set(fields, alloc, key, value)
}

// The fields of items with spaces between them.
fn extra_fields(alloc: Global, extra: &[u8]) -> Result<Fields, AllocError>
    ensures { IfOk result (λ fields. fields ≡ extra_fields extra.now) }
{
    let mut fields = Fields::new(alloc);
    let mut rest = extra;
    'items: while let Some((item, more)) = split_at_byte(rest, b' ') {
        put_item(&mut fields, alloc, item)?;
        rest = more;
    }
    put_item(&mut fields, alloc, rest)?;
    Ok(fields)
}

fn account_fields(alloc: Global, line: &[u8]) -> Result<Fields, AllocError>
    ensures { IfOk result (λ fields. fields ≡ account_fields line.now) }
{
    let columns = columns_of(line);
    let mut fields = Fields::new(alloc);
    put_filled(&mut fields, alloc, b"uid", columns.uid)?;
    put_filled(&mut fields, alloc, b"gid", columns.gid)?;
    put_filled(&mut fields, alloc, b"home", columns.home)?;
    Ok(fields)
}

fn user_fields(alloc: Global, line: &[u8]) -> Result<Fields, AllocError>
    ensures { IfOk result (λ fields. fields ≡ user_fields line.now) }
{
    let account = account_fields(alloc, line)?;
    let extra = extra_fields(alloc, columns_of(line).extra)?;
    let part = userdb_part(alloc, &extra)?;
    let none = Fields::new(alloc);
    merge(alloc, &account, &none, &part, &none)
}

fn answer_of_line(alloc: Global, kind: QueryKind, line: Option<&[u8]>) -> Result<Answer, AllocError>
    ensures { IfOk result (λ answer. answer ≡ answer_of_line kind (option_copied line.entry)) }
{
    let Some(line) = line else {
        return Ok(Answer::Unknown);
    };
    let columns = columns_of(line);
    match kind {
        QueryKind::Pass => Ok(Answer::Found {
            stored: Text::from_slice(alloc, columns.password)?,
            fields: extra_fields(alloc, columns.extra)?,
        }),
        QueryKind::User => Ok(Answer::Found {
            stored: Text::from_slice(alloc, b"")?,
            fields: user_fields(alloc, line)?,
        }),
        QueryKind::Check => Ok(Answer::Internal(Why::Said)),
    }
}

/// What a passwd-file with these bytes answers to the query, by the first line whose user is the query's, byte by byte: a
/// password database the password and the extra fields, a user database the account's fields; `Unknown` exactly where
/// the user has no line. The file is gone through once, up to that line. A `Check` of a user that is there is
/// `Internal(Said)`: a passwd-file checks no password.
#[tactic(auto, unfolding(crate::specs::Passwd::row))]
pub fn row(alloc: Global, file: &[u8], query: &Query) -> Result<Answer, AllocError>
    ensures { IfOk result (λ answer. answer ≡ row file.now query.now) }
{
    let line = user_line(query.user.bytes(), file);
    answer_of_line(alloc, query.kind, line)
}
