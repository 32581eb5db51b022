use crate::cases::text;
use da_fields::{Answer, Fields, Query, QueryKind, Why};
use da_query::*;
use std::alloc::{AllocError, Global};
use std::test::Fail;

// Lines, each behind `+` where it is a query, and behind `-` where it is none. A query's line is printed as it was read.
const QUERY_LINES: &[u8] =
    b"+PASS\t1\t1\talice\n+USER\t2\t1\talice\n+USER\t4294967295\t16\t\n+CHECK\t0\t2\tbob\t\n+CHECK\t7\t2\ta\x01tb\t\x01n\x010\n\
-\n-PASS\n-PASS\t1\t1\n-PASS\t1\t1\talice\tpw\n-USER\t1\t1\talice\t\n-CHECK\t1\t1\talice\n-CHECK\t1\t1\talice\tpw\t\n\
-PASS\t01\t1\ta\n-PASS\t4294967296\t1\ta\n-PASS\t1\t-1\ta\n-pass\t1\t1\talice\n-PASS \t1\t1\talice";

// Lines to the query 5, each behind the first letter of what it is to a query of the kinds Pass, Check and User: Found,
// Passed, miSmatch, Unknown, Internal(said) as `!`, and Internal(malformed) as `-`.
const ANSWER_LINES: &[u8] =
    b"F--FOUND\t5\t{PLAIN}pw\nF-FFOUND\t5\t\nF-FFOUND\t5\t\tuid=1000\thome=/h\nF--FOUND\t5\tx\ta\tb=\tc==\n\
---FOUND\t5\n---FOUND\t6\t{PLAIN}pw\n---FOUND\t05\tx\n---FOUND\t5\tx\t\n---FOUND\t5\tx\t=v\n---FOUND\t5\tx\ta=1\tb\ta=2\n\
-P-PASSED\t5\n-P-PASSED\t5\tuid=1\n---PASSED\t5\ta\ta\n-S-MISMATCH\t5\n---MISMATCH\t5\t\nUUUUNKNOWN\t5\n---UNKNOWN\t5\tx\n\
!!!FAIL\t5\n!!!FAIL\t5\tdisk\n!!!FAIL\t5\t\n---FAIL\t5\ta\tb\n---FAIL\n---INTERNAL\t5\tsaid\n---FOU\n---\n---found\t5\t";

// Lines of a script, each behind `+` where it is an answer, and behind `-` where it is none. An answer's line is printed
// as it was read.
const SCRIPT_LINES: &[u8] = b"+FOUND\t1\t{PLAIN}pw\tuserdb_quota=1G\tnodelay\n\
+FOUND\t2\t\tuid=1000\tgid=1000\thome=/home/alice\tquota=1G\n+FOUND\t1\t\x010\tk=v=w\x01t\n+PASSED\t2\n+MISMATCH\t3\n+UNKNOWN\t4294967295\n\
+INTERNAL\t1\tdied\n+INTERNAL\t1\tmalformed\n+INTERNAL\t1\tsaid\n+INTERNAL\t1\texit\t0\n+INTERNAL\t1\texit\t4294967295\n\
-INTERNAL\t1\tlate\n-INTERNAL\t1\n-INTERNAL\t1\texit\n-INTERNAL\t1\texit\t00\n-INTERNAL\t1\tdied\t\n-INTERNAL\t1\texit\t1\t\n\
-FAIL\t1\n-FAIL\t1\tdisk\n-FOUND\t1\n-FOUND\t1\tx\ta\ta=1\n-UNKNOWN\t4294967296";

fn query_of_kind(alloc: Global, kind: QueryKind) -> Result<Query, AllocError> {
    Ok(Query {
        number: 5,
        kind,
        db: 1,
        user: text(alloc, b"alice")?,
        password: None,
    })
}

fn letter_of(answer: &Answer) -> u8 {
    match answer {
        Answer::Found { .. } => b'F',
        Answer::Passed { .. } => b'P',
        Answer::Mismatch => b'S',
        Answer::Unknown => b'U',
        Answer::Internal(Why::Said) => b'!',
        Answer::Internal(Why::Malformed) => b'-',
        Answer::Internal(_) => b'?',
    }
}

fn letter_to(alloc: Global, kind: QueryKind, line: &[u8]) -> Result<u8, AllocError> {
    Ok(letter_of(&read_answer(alloc, &query_of_kind(alloc, kind)?, line)?))
}

fn query_again(alloc: Global, line: &[u8]) -> Result<Vec<u8>, AllocError> {
    match read_query(alloc, line)? {
        Some(query) => print(alloc, &query),
        None => Ok(Vec::new(alloc)),
    }
}

fn query_is_right(alloc: Global, case: &[u8]) -> Result<bool, AllocError> {
    let Some((sign, line)) = case.split_first() else {
        return Ok(false);
    };
    let wanted: &[u8] = if *sign == b'+' { line } else { b"" };
    Ok(query_again(alloc, line)?.as_slice() == wanted)
}

#[test]
fn queries_are_read_and_printed(rt: HostRuntime) -> Result<(), Fail> {
    for case in QUERY_LINES.split(|byte| *byte == b'\n') {
        assert!(rt; query_is_right(rt.alloc(), case)?);
    }
    Ok(())
}

fn fits(alloc: Global, case: &[u8]) -> Result<bool, AllocError> {
    match case {
        [pass, check, user, line @ ..] => Ok(
            letter_to(alloc, QueryKind::Pass, line)? == *pass
                && letter_to(alloc, QueryKind::Check, line)? == *check
                && letter_to(alloc, QueryKind::User, line)? == *user,
        ),
        _ => Ok(false),
    }
}

#[test]
fn lines_answer_the_queries_that_they_fit(rt: HostRuntime) -> Result<(), Fail> {
    for case in ANSWER_LINES.split(|byte| *byte == b'\n') {
        assert!(rt; fits(rt.alloc(), case)?);
    }
    Ok(())
}

fn answer_again(alloc: Global, line: &[u8]) -> Result<Vec<u8>, AllocError> {
    match read_script_answer(alloc, line)? {
        Some((number, answer)) => print_answer(alloc, number, &answer),
        None => Ok(Vec::new(alloc)),
    }
}

fn answer_is_right(alloc: Global, case: &[u8]) -> Result<bool, AllocError> {
    let Some((sign, line)) = case.split_first() else {
        return Ok(false);
    };
    let wanted: &[u8] = if *sign == b'+' { line } else { b"" };
    Ok(answer_again(alloc, line)?.as_slice() == wanted)
}

#[test]
fn answers_of_scripts_are_read_and_printed(rt: HostRuntime) -> Result<(), Fail> {
    for case in SCRIPT_LINES.split(|byte| *byte == b'\n') {
        assert!(rt; answer_is_right(rt.alloc(), case)?);
    }
    Ok(())
}

#[test]
fn a_late_answer_is_printed_and_never_read(rt: HostRuntime) -> Result<(), Fail> {
    let line = print_answer(rt.alloc(), 1, &Answer::Internal(Why::Late))?;
    assert!(rt; line.as_slice() == b"INTERNAL\t1\tlate".as_slice());
    assert!(rt; read_script_answer(rt.alloc(), &line)?.is_none());
    Ok(())
}

fn found(alloc: Global, stored: &[u8]) -> Result<Answer, AllocError> {
    Ok(Answer::Found {
        stored: text(alloc, stored)?,
        fields: Fields::new(alloc),
    })
}

#[test]
fn an_answer_of_a_user_database_has_no_password(rt: HostRuntime) -> Result<(), Fail> {
    let alloc = rt.alloc();
    assert!(rt; fit(QueryKind::Pass, &found(alloc, b"x")?));
    assert!(rt; !fit(QueryKind::User, &found(alloc, b"x")?));
    assert!(rt; fit(QueryKind::User, &found(alloc, b"")?));
    Ok(())
}
