use crate::cases::cut;
use da_names::*;
use std::alloc::{AllocError, Global};
use std::test::Fail;

// Whether the name is made this, or none where this is `none`.
fn is_made(alloc: Global, name: &[u8], lower: bool, wanted: &[u8]) -> Result<bool, AllocError> {
    Ok(match normal(alloc, name, b"abcABC@.", lower)? {
        Some(made) => made.as_slice() == wanted,
        None => wanted == b"none".as_slice(),
    })
}

fn is_made_small(alloc: Global, case: &[u8]) -> Result<bool, AllocError> {
    let (name, wanted) = cut(case, b'=');
    is_made(alloc, name, true, wanted)
}

#[test]
fn a_name_is_made_normal_or_is_none(rt: HostRuntime) -> Result<(), Fail> {
    for case in b"aB@c=ab@c|=none|a b=none".split(|byte| *byte == b'|') {
        assert!(rt; is_made_small(rt.alloc(), case)?);
    }
    assert!(rt; is_made(rt.alloc(), b"aB@c", false, b"aB@c")?);
    Ok(())
}

fn is_split(name: &[u8], wanted: &[u8], rest: &[u8]) -> bool {
    match split_master(name, b'*') {
        Some((user, master)) => user == wanted && master == rest,
        None => false,
    }
}

#[test]
fn the_first_separator_splits_a_name(rt: HostRuntime) {
    assert!(rt; is_split(b"bob*root*x", b"bob", b"root*x"));
    assert!(rt; split_master(b"bob", b'*').is_none());
}

// Filters, each with a name behind `;`, and behind `+` where the name matches and behind `-` where it doesn't.
const FILTERS: &[u8] = b"+;bob\n+  ;bob\n+bob;bob\n-bob;bobby\n+*;\n-?;\n+b?b;bob\n\
+*@example.com;bob@example.com\n-*@example.com;bob@example.com.org\n+a*b*c;axxbyybzzc\n-a*b*c;axxbyybzz\n\
+*ab;aaab\n+*a?b;aacaab\n+ alice  bob ;bob\n+!bob;alice\n-!bob;bob\n-* !*@evil.org;bob@evil.org\n\
-!*@evil.org bob*;alice\n+!*@evil.org bob*;bobby\n\
-**********************b;aaaaaaaaaaaaaaaaaaaaaaaaaaaaaaaaaaaaaaaa";

fn filter_is_right(case: &[u8]) -> bool {
    let Some((sign, words)) = case.split_first() else {
        return false;
    };
    let (filter, name) = cut(words, b';');
    filter_matches(filter, name) == (*sign == b'+')
}

#[test]
fn filters_match_by_their_words(rt: HostRuntime) {
    for case in FILTERS.split(|byte| *byte == b'\n') {
        assert!(rt; filter_is_right(case));
    }
}

fn text(alloc: Global, bytes: &[u8]) -> Result<VarText, AllocError> {
    VarText::from_slice(alloc, bytes)
}

fn vars(alloc: Global) -> Result<Vars, AllocError> {
    let user = text(alloc, b"bob@example.com")?;
    let service = text(alloc, b"imap")?;
    let rip = text(alloc, b"10.0.0.1")?;
    Ok(Vars {
        user,
        service,
        rip,
        lip: VarText::new(Vec::new(alloc)),
    })
}

fn is_expanded(alloc: Global, vars: &Vars, case: &[u8]) -> Result<bool, AllocError> {
    let (template, wanted) = cut(case, b'=');
    if !template_ok(template) {
        return Ok(false);
    }
    Ok(expand(alloc, template, vars)?.as_slice() == wanted)
}

// Templates, each with what it is expanded to behind `=`.
const TEMPLATES: &[u8] = b"plain=plain|%u=bob@example.com|/%d/%n=/example.com/bob|\
%s %r <%l>=imap 10.0.0.1 <>|100%%u=100%u";

#[test]
fn templates_are_expanded(rt: HostRuntime) -> Result<(), Fail> {
    let vars = vars(rt.alloc())?.copy(rt.alloc())?;
    for case in TEMPLATES.split(|byte| *byte == b'|') {
        assert!(rt; is_expanded(rt.alloc(), &vars, case)?);
    }
    for template in b"%|a%x|%%%".split(|byte| *byte == b'|') {
        assert!(rt; !template_ok(template));
    }
    Ok(())
}
