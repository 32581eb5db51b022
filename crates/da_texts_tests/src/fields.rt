use crate::cases::{listed, text};
use da_fields::*;
use std::alloc::{AllocError, Global};
use std::test::Fail;

fn show(all: &mut Vec<u8>, key: &Text, value: &Text) -> Result<(), AllocError> {
    all.extend_from_slice(key.bytes())?;
    all.extend_from_slice(b"=")?;
    all.extend_from_slice(value.bytes())?;
    all.extend_from_slice(b";")
}

fn shown(alloc: Global, fields: &Fields) -> Result<Vec<u8>, AllocError> {
    let mut all = Vec::new(alloc);
    for (key, value) in fields.pairs() {
        show(&mut all, key, value)?;
    }
    Ok(all)
}

fn are(alloc: Global, fields: &Fields, wanted: &[u8]) -> Result<bool, AllocError> {
    Ok(shown(alloc, fields)?.as_slice() == wanted)
}

#[test]
fn a_key_keeps_its_place(rt: HostRuntime) -> Result<(), Fail> {
    let fields = listed(rt.alloc(), b"uid=1000;home=;uid=1001")?;
    assert!(rt; are(rt.alloc(), &fields, b"uid=1001;home=;")?);
    assert!(rt; fields.get(b"home") == Some(b"".as_slice()));
    assert!(rt; fields.get(b"gid").is_none());
    Ok(())
}

fn all_listed(alloc: Global, lists: &[u8]) -> Result<Vec<Fields>, AllocError> {
    let mut all = Vec::new(alloc);
    for list in lists.split(|byte| *byte == b'|') {
        all.push(listed(alloc, list)?)?;
    }
    Ok(all)
}

fn are_merged(alloc: Global, lists: &[Fields], wanted: &[u8]) -> Result<bool, AllocError> {
    match lists {
        [before, default, found, over] => {
            are(alloc, &merge(alloc, before, default, found, over)?, wanted)
        }
        _ => Ok(false),
    }
}

#[test]
fn overrides_stand_above_what_was_found_and_defaults_below(rt: HostRuntime) -> Result<(), Fail> {
    let lists = all_listed(
        rt.alloc(),
        b"quota=small|quota=none;mail=d|uid=1;mail=a|quota=imap",
    )?;
    assert!(rt; are_merged(rt.alloc(), &lists, b"quota=imap;mail=a;uid=1;")?);
    Ok(())
}

const FOR_THE_SERVICE: &[u8] =
    b"userdb_home=/home/alice;allow_nets=10.0.0.0/8;nodelay;expired=yes;mail=a;userdb_uid=1000";

#[test]
fn a_client_is_not_told_what_is_for_the_service(rt: HostRuntime) -> Result<(), Fail> {
    let alloc = rt.alloc();
    let fields = listed(alloc, FOR_THE_SERVICE)?;
    assert!(rt; are(alloc, &visible(alloc, &fields)?, b"mail=a;")?);
    assert!(rt;
        are(
            alloc,
            &userdb_part(alloc, &fields)?,
            b"home=/home/alice;uid=1000;"
        )?
    );
    Ok(())
}

fn is_found(alloc: Global, answer: &Answer) -> Result<bool, AllocError> {
    match answer {
        Answer::Found { stored, fields } => {
            Ok(stored.bytes() == b"{PLAIN}pw".as_slice() && are(alloc, fields, b"uid=1000;")?)
        }
        _ => Ok(false),
    }
}

fn found(alloc: Global) -> Result<Answer, AllocError> {
    let fields = listed(alloc, b"uid=1000")?;
    let stored = text(alloc, b"{PLAIN}pw")?;
    Ok(Answer::Found { stored, fields })
}

fn query(alloc: Global) -> Result<Query, AllocError> {
    let user = text(alloc, b"alice")?;
    let password = text(alloc, b"pw")?;
    Ok(Query {
        number: 7,
        kind: QueryKind::Check,
        db: 2,
        user,
        password: Some(password),
    })
}

fn has_user_and_password(query: &Query) -> bool {
    match &query.password {
        Some(password) => {
            query.user.bytes() == b"alice".as_slice() && password.bytes().len() == 2
        }
        None => false,
    }
}

#[test]
fn copies_are_equal(rt: HostRuntime) -> Result<(), Fail> {
    let alloc = rt.alloc();
    assert!(rt; is_found(alloc, &found(alloc)?.copy(alloc)?)?);
    assert!(rt; has_user_and_password(&query(alloc)?.copy(alloc)?));
    Ok(())
}
