ghost use Rattle.da_userdb.specs.UserCursors.{IsAlong};

use crate::cases::{add, add_fields, cut, fields_of, numbered, text, variable};
use da_fields::{Answer, Fields, Text};
use da_names::Vars;
use da_userdb::*;
use std::alloc::Global;
use std::process::Abort;

// Which databases are asked.
#[derive(Clone, Copy)]
enum Scene {
    // Two workers.
    Plain,
    // The first has what the password databases gave.
    Prefetch,
    // The first goes on where it finds the user, with a default and an override; the second is asked where it doesn't.
    Continue,
    // The first ends the chain without success where it gives no answer.
    ReturnFail,
    // The second is asked only where the user was found.
    SkipsNotFound,
}

fn worker(alloc: Global, number: u32) -> Userdb {
    Userdb {
        number,
        driver: UserDriver::Worker,
        args: Text::new(Vec::new(alloc)),
        skip: UserSkip::Never,
        result_success: UserRule::ReturnOk,
        result_failure: UserRule::Continue,
        result_internalfail: UserRule::Continue,
        default_fields: Fields::new(alloc),
        override_fields: Fields::new(alloc),
    }
}

fn first<R: Abort>(rt: &R, alloc: Global, scene: Scene) -> Userdb {
    let mut first = worker(alloc, 1);
    match scene {
        Scene::Plain | Scene::SkipsNotFound => {}
        Scene::Prefetch => first.driver = UserDriver::Prefetch,
        Scene::Continue => {
            first.result_success = UserRule::ContinueOk;
            first.default_fields = fields_of(rt, alloc, b"gid=100");
            first.override_fields = fields_of(rt, alloc, b"home=/home/%n");
        }
        Scene::ReturnFail => first.result_internalfail = UserRule::ReturnFail,
    }
    first
}

fn second(alloc: Global, scene: Scene) -> Userdb {
    let mut second = worker(alloc, 2);
    match scene {
        Scene::Continue => second.skip = UserSkip::Found,
        Scene::SkipsNotFound => second.skip = UserSkip::NotFound,
        _ => {}
    }
    second
}

fn databases<R: Abort>(rt: &R, alloc: Global, scene: Scene) -> Vec<Userdb> {
    let mut dbs = Vec::new(alloc);
    let copy = first(rt, alloc, scene).copy(alloc).expect(rt, "memory");
    dbs.push(copy).expect(rt, "memory");
    dbs.push(second(alloc, scene)).expect(rt, "memory");
    dbs
}

fn variables<R: Abort>(rt: &R, alloc: Global) -> Vars {
    Vars {
        user: variable(rt, alloc, b"alice@example.com"),
        service: variable(rt, alloc, b"imap"),
        rip: variable(rt, alloc, b"127.0.0.1"),
        lip: variable(rt, alloc, b"127.0.0.1"),
    }
}

fn user<R: Abort>(rt: &R, alloc: Global) -> Text {
    text(rt, alloc, b"alice@example.com")
}

// What a chain tells, as a text.
fn shown<R: Abort>(rt: &R, alloc: Global, chain: &UserChain) -> Vec<u8> {
    let mut line = Vec::new(alloc);
    match chain {
        UserChain::Ask { db } => add(rt, &mut line, if *db == 1 { b"ask 1" } else { b"ask 2" }),
        UserChain::Found { fields } => {
            add(rt, &mut line, b"found");
            add_fields(rt, &mut line, fields);
        }
        UserChain::NotFound => add(rt, &mut line, b"not found"),
        UserChain::Temp => add(rt, &mut line, b"temp"),
    }
    line
}

// Whether the chain tells this from all answers at once.
fn tells_at_once<R: Abort>(
    rt: &R,
    alloc: Global,
    dbs: &[Userdb],
    given: &[u8],
    answers: &[(u32, Answer)],
    wanted: &[u8],
) -> bool {
    if !are_valid_userdbs(dbs) {
        return false;
    }
    let user = user(rt, alloc);
    let given = fields_of(rt, alloc, given);
    let vars = variables(rt, alloc);
    let chain = user_next(alloc, dbs, &user, &given, &vars, answers).expect(rt, "memory");
    shown(rt, alloc, &chain).as_slice() == wanted
}

// Lets a chain take an answer, where it asks.
fn take_one<R: Abort>(
    rt: &R,
    alloc: Global,
    dbs: &[Userdb],
    cursor: &mut UserCursor,
    answer: &Answer,
)
    requires { IsAlong dbs.now cursor.old }
    ensures { IsAlong dbs.now cursor.new }
{
    let answer = answer.copy(alloc).expect(rt, "memory");
    match cursor.at(alloc, dbs).expect(rt, "memory") {
        UserChain::Ask { .. } => cursor.take(dbs, answer).expect(rt, "memory"),
        UserChain::Found { .. } | UserChain::NotFound | UserChain::Temp => {}
    }
}

fn take_all<R: Abort>(
    rt: &R,
    alloc: Global,
    dbs: &[Userdb],
    cursor: &mut UserCursor,
    answers: &[(u32, Answer)],
)
    requires { IsAlong dbs.now cursor.old }
    ensures { IsAlong dbs.now cursor.new }
{
    for (_, answer) in answers {
        take_one(rt, alloc, dbs, cursor, answer);
    }
}

// Whether the chain tells this answer by answer.
fn tells_by_cursor<R: Abort>(
    rt: &R,
    alloc: Global,
    dbs: &[Userdb],
    given: &[u8],
    answers: &[(u32, Answer)],
    wanted: &[u8],
) -> bool {
    if !are_valid_userdbs(dbs) {
        return false;
    }
    let user = user(rt, alloc);
    let given = fields_of(rt, alloc, given);
    let vars = variables(rt, alloc);
    let mut cursor = UserCursor::new(alloc, dbs, user, given, vars).expect(rt, "memory");
    take_all(rt, alloc, dbs, &mut cursor, answers);
    let copy = cursor.copy(alloc).expect(rt, "memory");
    let chain = copy.at(alloc, dbs).expect(rt, "memory");
    shown(rt, alloc, &chain).as_slice() == wanted
}

fn is_right<R: Abort>(rt: &R, alloc: Global, dbs: &[Userdb], case: &[u8], by_cursor: bool) -> bool {
    let (given, told) = cut(case, b';');
    let (reported, wanted) = cut(told, b'>');
    let answers = numbered(rt, alloc, reported);
    if by_cursor {
        tells_by_cursor(rt, alloc, dbs, given, &answers, wanted)
    } else {
        tells_at_once(rt, alloc, dbs, given, &answers, wanted)
    }
}

fn are_right<R: Abort>(rt: &R, alloc: Global, scene: Scene, cases: &[u8], by_cursor: bool) -> bool {
    let dbs = databases(rt, alloc, scene);
    let mut right = true;
    for case in cases.split(|byte| *byte == b'\n') {
        let told = is_right(rt, alloc, &dbs, case, by_cursor);
        right = right && told;
    }
    right
}

// The cases of each scene: what the password databases gave, behind `;` the answers with bars between them, and behind
// `>` what the chain tells then. No user database gives a stored password.
const CASES: [(Scene, &[u8]); 5] = [
    (
        Scene::Plain,
        b";>ask 1\n;F uid=1000 home=/home/alice>found uid=1000 home=/home/alice\n;U>ask 2\n;U|U>not found\n;I|U>temp\n\
;F{PLAIN}pw|U>temp\n;I|F uid=1>found uid=1",
    ),
    (
        Scene::Prefetch,
        b"userdb_quota=1G nodelay;>found quota=1G\nnodelay userdb_=x;>ask 2",
    ),
    (
        Scene::Continue,
        b";F uid=1000 home=/x>found gid=100 uid=1000 home=/home/alice\n;U>ask 2\n;U|U>not found",
    ),
    (Scene::ReturnFail, b";I>temp\n;U>ask 2"),
    (Scene::SkipsNotFound, b";U>not found\n;>ask 1"),
];

#[test]
fn all_answers_at_once_lead_to_what_is_found(rt: HostRuntime) {
    for (scene, cases) in CASES {
        assert!(rt; are_right(&rt, rt.alloc(), scene, cases, false));
    }
}

#[test]
fn one_answer_after_the_other_leads_there_too(rt: HostRuntime) {
    for (scene, cases) in CASES {
        assert!(rt; are_right(&rt, rt.alloc(), scene, cases, true));
    }
}
