ghost use Rattle.std.specs.Prelude.{◌≡◌, true};
ghost use Rattle.da_passdb.specs.Cursors.{IsAlong, IsAsking};

use crate::cases::{add, add_fields, cut, fields_of, numbered, text, variable};
use da_fields::{Answer, Fields, QueryKind, Text};
use da_names::Vars;
use da_passdb::*;
use da_schemes::{Checked, Octets, Scheme, Stored};
use std::alloc::Global;
use std::process::Abort;

// Which databases are asked, and for whom.
#[derive(Clone, Copy)]
enum Scene {
    // Two workers.
    Plain,
    // The first is a deny database.
    Deny,
    // The first authenticates masters, and goes on; `root` logs in as `bob`.
    Master,
    // The same, but a right master ends the chain.
    MasterReturns,
    // The first goes on with success, and overrides a field by the service.
    ContinueOk,
    // The first goes on, and the second is asked for users alone who have no success yet.
    SkipsAuthenticated,
    // The second is a program that checks a password.
    Check,
    // The first takes only names that end in `@example.com`.
    Filter,
    // The second ends the chain without success where it gives no answer.
    ReturnFail,
    // Two workers, and a login by CRAM-MD5.
    Cram,
    // Two workers, and a login by SCRAM-SHA-256.
    Scram,
}

fn worker(alloc: Global, number: u32) -> Passdb {
    Passdb {
        number,
        driver: Driver::Worker,
        args: Text::new(Vec::new(alloc)),
        deny: false,
        master: false,
        skip: Skip::Never,
        result_success: Rule::ReturnOk,
        result_failure: Rule::Continue,
        result_internalfail: Rule::Continue,
        default_scheme: Scheme::Plain,
        username_filter: Text::new(Vec::new(alloc)),
        default_fields: Fields::new(alloc),
        override_fields: Fields::new(alloc),
    }
}

fn first<R: Abort>(rt: &R, alloc: Global, scene: Scene) -> Passdb {
    let mut first = worker(alloc, 1);
    match scene {
        Scene::Plain | Scene::Cram | Scene::Scram => {}
        Scene::Deny => first.deny = true,
        Scene::Master => {
            first.master = true;
            first.result_success = Rule::Continue;
        }
        Scene::MasterReturns => first.master = true,
        Scene::ContinueOk => {
            first.result_success = Rule::ContinueOk;
            first.override_fields = fields_of(rt, alloc, b"quota=%s");
        }
        Scene::SkipsAuthenticated | Scene::ReturnFail => first.result_success = Rule::ContinueOk,
        Scene::Check => first.result_success = Rule::Continue,
        Scene::Filter => first.username_filter = text(rt, alloc, b"*@example.com"),
    }
    first
}

fn second(alloc: Global, scene: Scene) -> Passdb {
    let mut second = worker(alloc, 2);
    match scene {
        Scene::SkipsAuthenticated => second.skip = Skip::Authenticated,
        Scene::Check => second.driver = Driver::Checkpassword,
        Scene::ReturnFail => second.result_internalfail = Rule::ReturnFail,
        _ => {}
    }
    second
}

fn databases<R: Abort>(rt: &R, alloc: Global, scene: Scene) -> Vec<Passdb> {
    let mut dbs = Vec::new(alloc);
    let copy = first(rt, alloc, scene).copy(alloc).expect(rt, "memory");
    dbs.push(copy).expect(rt, "memory");
    dbs.push(second(alloc, scene)).expect(rt, "memory");
    dbs
}

fn user_of(scene: Scene) -> &'static [u8] {
    match scene {
        Scene::Master | Scene::MasterReturns => b"bob",
        _ => b"alice",
    }
}

fn master_of<R: Abort>(rt: &R, alloc: Global, scene: Scene) -> Option<Text> {
    match scene {
        Scene::Master | Scene::MasterReturns => Some(text(rt, alloc, b"root")),
        _ => None,
    }
}

fn proof_of<R: Abort>(rt: &R, alloc: Global, scene: Scene) -> Proof {
    match scene {
        Scene::Cram => Proof::Cram,
        Scene::Scram => Proof::Scram,
        _ => Proof::Plain(text(rt, alloc, b"pw")),
    }
}

fn vars_of<R: Abort>(rt: &R, alloc: Global, user: &[u8]) -> Vars {
    Vars {
        user: variable(rt, alloc, user),
        service: variable(rt, alloc, b"imap"),
        rip: variable(rt, alloc, b"127.0.0.1"),
        lip: variable(rt, alloc, b"127.0.0.1"),
    }
}

// A login with the password `pw`.
fn login<R: Abort>(rt: &R, alloc: Global, scene: Scene) -> Login {
    let user = user_of(scene);
    Login {
        user: text(rt, alloc, user),
        master: master_of(rt, alloc, scene),
        proof: proof_of(rt, alloc, scene),
        vars: vars_of(rt, alloc, user),
    }
}

fn kind_word(kind: VerdictKind) -> &'static [u8] {
    match kind {
        VerdictKind::Ok => b"ok ",
        VerdictKind::Fail => b"fail ",
        VerdictKind::Temp => b"temp ",
        VerdictKind::Disabled => b"disabled ",
        VerdictKind::Expired => b"expired ",
    }
}

fn add_verdict<R: Abort>(rt: &R, line: &mut Vec<u8>, verdict: &Verdict) {
    add(rt, line, kind_word(verdict.kind));
    add(rt, line, verdict.user.bytes());
    if verdict.authz {
        add(rt, line, b" authz");
    }
    if verdict.credentials.is_some() {
        add(rt, line, b" stored");
    }
    add_fields(rt, line, &verdict.fields);
}

fn query_word(kind: QueryKind) -> &'static [u8] {
    match kind {
        QueryKind::Check => b"check ",
        _ => b"pass ",
    }
}

// What a chain tells, as a text.
fn shown<R: Abort>(rt: &R, alloc: Global, chain: &Chain) -> Vec<u8> {
    let mut line = Vec::new(alloc);
    match chain {
        Chain::Ask { db, kind, user, .. } => {
            add(rt, &mut line, query_word(*kind));
            add(rt, &mut line, if *db == 1 { b"1 " } else { b"2 " });
            add(rt, &mut line, user.bytes());
        }
        Chain::Done(verdict) => add_verdict(rt, &mut line, verdict),
    }
    line
}

// Whether the chain tells what the case says from all answers at once.
fn is_told_at_once<R: Abort>(
    rt: &R,
    alloc: Global,
    dbs: &[Passdb],
    login: &Login,
    case: &[u8],
) -> bool {
    let (reported, wanted) = cut(case, b'>');
    if !are_valid_passdbs(dbs) {
        return false;
    }
    let answers = numbered(rt, alloc, reported);
    let chain = next(alloc, dbs, login, &answers).expect(rt, "memory");
    shown(rt, alloc, &chain).as_slice() == wanted
}

// Whether a chain asks a database.
fn asks<R: Abort>(rt: &R, alloc: Global, dbs: &[Passdb], cursor: &Cursor) -> bool
    requires { IsAlong dbs.now cursor.now }
    ensures { result ≡ true → IsAsking dbs.now cursor.now }
{
    match cursor.at(alloc, dbs).expect(rt, "memory") {
        Chain::Ask { .. } => true,
        Chain::Done(_) => false,
    }
}

// Lets a chain take an answer, where it asks.
fn take_one<R: Abort>(
    rt: &R,
    alloc: Global,
    dbs: &[Passdb],
    cursor: &mut Cursor,
    answer: &Answer,
    memo: &[Checked],
)
    requires { IsAlong dbs.now cursor.old }
    ensures { IsAlong dbs.now cursor.new }
{
    if asks(rt, alloc, dbs, cursor) {
        let answer = answer.copy(alloc).expect(rt, "memory");
        cursor.take(dbs, answer, memo).expect(rt, "memory");
    }
}

fn take_all<R: Abort>(
    rt: &R,
    alloc: Global,
    dbs: &[Passdb],
    cursor: &mut Cursor,
    answers: &[(u32, Answer)],
    memo: &[Checked],
)
    requires { IsAlong dbs.now cursor.old }
    ensures { IsAlong dbs.now cursor.new }
{
    for (_, answer) in answers {
        take_one(rt, alloc, dbs, cursor, answer, memo);
    }
}

// Whether the chain tells what the case says answer by answer.
fn is_told_by_cursor<R: Abort>(
    rt: &R,
    alloc: Global,
    dbs: &[Passdb],
    login: &Login,
    case: &[u8],
    memo: &[Checked],
) -> bool {
    let (reported, wanted) = cut(case, b'>');
    if !are_valid_passdbs(dbs) {
        return false;
    }
    let login = login.copy(alloc).expect(rt, "memory");
    let mut cursor = Cursor::new(alloc, dbs, login).expect(rt, "memory");
    let answers = numbered(rt, alloc, reported);
    take_all(rt, alloc, dbs, &mut cursor, &answers, memo);
    let copy = cursor.copy(alloc).expect(rt, "memory");
    let chain = copy.at(alloc, dbs).expect(rt, "memory");
    shown(rt, alloc, &chain).as_slice() == wanted
}

// Whether all cases of a scene are right: answer by answer where there is a memo.
fn are_right<R: Abort>(
    rt: &R,
    alloc: Global,
    scene: Scene,
    cases: &[u8],
    memo: Option<&[Checked]>,
) -> bool {
    let dbs = databases(rt, alloc, scene);
    let login = login(rt, alloc, scene);
    let mut right = true;
    for case in cases.split(|byte| *byte == b'\n') {
        let told = match memo {
            None => is_told_at_once(rt, alloc, &dbs, &login, case),
            Some(memo) => is_told_by_cursor(rt, alloc, &dbs, &login, case, memo),
        };
        right = right && told;
    }
    right
}

// A stored password held against `plain`.
fn checked<R: Abort>(rt: &R, alloc: Global, stored: &[u8], plain: &[u8]) -> Checked {
    let stored = Stored::read(alloc, Scheme::Plain, stored).expect(rt, "a stored password");
    let plain = Octets::new(Vec::from_slice(alloc, plain).expect(rt, "memory"));
    Checked::new(stored, plain)
}

fn memo<R: Abort>(rt: &R, alloc: Global) -> Vec<Checked> {
    let mut memo = Vec::new(alloc);
    for (stored, plain) in [
        ("{PLAIN}pw", "no"),
        ("{PLAIN}no", "no"),
        ("{PLAIN}pw", "pw"),
    ] {
        let one = checked(rt, alloc, stored.as_bytes(), plain.as_bytes());
        memo.push(one).expect(rt, "memory");
    }
    memo
}

// The cases of each scene: answers with bars between them, and behind `>` what the chain tells then.
const CASES: [(Scene, &[u8]); 11] = [
    (
        Scene::Plain,
        b">pass 1 alice\nI>pass 2 alice\nI|U>temp alice\nU|U>fail alice\nF{PLAIN}pw home=/h>ok alice stored home=/h\n\
F{PLAIN}no home=/h|U>fail alice\nF{PLAIN}pw expired>expired alice stored expired=\n\
F{PLAIN}pw userdb_expired>ok alice stored userdb_expired=\nF{PLAIN}no expired|U>fail alice\nF{CRYPT}x|Fpw>ok alice stored\nP|U>temp alice",
    ),
    (
        Scene::Deny,
        b"F>disabled alice\nF expired>disabled alice\nI>temp alice\nU>pass 2 alice",
    ),
    (
        Scene::Master,
        b">pass 1 root\nF{PLAIN}pw>pass 2 bob\nF{PLAIN}pw|U>fail bob authz stored\n\
F{PLAIN}pw|F{PLAIN}other>ok bob authz stored\nF{PLAIN}no>fail bob\n\
F{PLAIN}pw expired|F{PLAIN}other>expired bob authz stored expired=",
    ),
    (
        Scene::MasterReturns,
        b"F{PLAIN}pw>ok bob stored\nF{PLAIN}pw expired>expired bob stored expired=",
    ),
    (
        Scene::ContinueOk,
        b"F{PLAIN}pw quota=big mail=a|F{PLAIN}pw allow_nets=10.0.0.0/8 mail=b>ok alice stored quota=imap mail=a\n\
F{PLAIN}pw|F{PLAIN}other mail=b>ok alice stored quota=imap mail=b",
    ),
    (
        Scene::SkipsAuthenticated,
        b"F{PLAIN}pw>ok alice stored\nU>pass 2 alice",
    ),
    (
        Scene::Check,
        b">pass 1 alice\nU>check 2 alice\nU|P home=/h>ok alice home=/h\nU|P allow_nets=10.0.0.0/8>fail alice\n\
U|P expired=no>expired alice expired=no\nU|M>fail alice\nF{PLAIN}pw>fail alice stored",
    ),
    (Scene::Filter, b">pass 2 alice"),
    (
        Scene::ReturnFail,
        b"F{PLAIN}pw|I>temp alice stored\nF{PLAIN}pw expired|I>temp alice stored expired=\n\
F{PLAIN}pw expired|U>expired alice stored expired=",
    ),
    (
        Scene::Cram,
        b"F{PLAIN}pw>ok alice stored\nF{PLAIN}pw expired>expired alice stored expired=\nF{SHA}qZk+NkcGgWq6PiVxeFDCbJzQ2J0=|U>fail alice",
    ),
    (
        Scene::Scram,
        b"F{SHA}qZk+NkcGgWq6PiVxeFDCbJzQ2J0=|U>fail alice\n\
F{SCRAM-SHA-256}4096,W22ZaJ0SNY7soEsUEjb6gQ==,AAAAAAAAAAAAAAAAAAAAAAAAAAAAAAAAAAAAAAAAAAA=,AAAAAAAAAAAAAAAAAAAAAAAAAAAAAAAAAAAAAAAAAAA=>ok alice stored",
    ),
];

#[test]
fn all_answers_at_once_lead_to_the_next_question(rt: HostRuntime) {
    for (scene, cases) in CASES {
        assert!(rt; are_right(&rt, rt.alloc(), scene, cases, None));
    }
}

#[test]
fn one_answer_after_the_other_leads_there_too(rt: HostRuntime) {
    for (scene, cases) in CASES {
        assert!(rt; are_right(&rt, rt.alloc(), scene, cases, Some(&[])));
    }
}

#[test]
fn passwords_checked_before_make_no_difference(rt: HostRuntime) {
    let memo = memo(&rt, rt.alloc());
    for (scene, cases) in CASES {
        assert!(rt; are_right(&rt, rt.alloc(), scene, cases, Some(&memo)));
    }
}
