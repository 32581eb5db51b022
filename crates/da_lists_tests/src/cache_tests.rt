ghost use Rattle.std.specs.Prelude.{IfOk};
ghost use Rattle.da_cache.specs.Pairs.{MayBeKept};

use da_cache::{Cache, Key};
use da_fields::{QueryKind, Text};
use std::alloc::{AllocError, Global};
use std::test::Fail;

/// A cache's size, and then calls: `+` puts a key, with 1 and so on as its number, `!` touches it, `-` drops it, and `~`
/// drops its user, `*` drops all; `=` wants the key with the number behind it, and `0` for a key that isn't there. A key is `p` or `u` for
/// its kind, `1` or `9` for database 1 or 16, and a letter for its user.
const CALLS: &[u8] =
    b"0 +p1a =p1a0|1 +p1a =p1a1 +p1b =p1a0 =p1b2|2 +p1a +p1b +p1c =p1a0 =p1b2 =p1c3|\
2 +p1a +p1b !p1a +p1c =p1a1 =p1b0 =p1c3|2 +p1a +p1b !p1x +p1c =p1a0|2 +p1a +p1b +p1a +p1c =p1a3 =p1b0 =p1c4|\
1 +p1a +p1a =p1a2|3 +p1a +u1a +p9a =p1a1 =u1a2 =p9a3 -u1a =p1a1 =u1a0 =p9a3|3 -p1a =p1a0|\
4 +p1a +u9a +p1b ~p1a =p1a0 =u9a0 =p1b3|2 +p1a +p1b -p1a +p1c =p1b2 =p1c3|2 +p1a +u1b *p1a =p1a0 =u1b0 +p1b =p1b3";

/// The users of a put's hits, once `a`, `b` and `c` were put in a cache of three, and behind `>` the one that then falls off.
const HITS: &[u8] = b">a|a>b|b>a|ba>c|ab>c|aa>b|cab>c|bac>b";

/// The key as it is spelled in the tables.
fn key_of(alloc: Global, kind: u8, db: u8, user: u8) -> Result<Key, AllocError>
    ensures { IfOk result MayBeKept }
{
    let mut bytes = Vec::new(alloc);
    bytes.push(user)?;
    Ok(Key {
        kind: if kind == b'p' {
            QueryKind::Pass
        } else {
            QueryKind::User
        },
        db: if db == b'1' { 1 } else { 16 },
        user: Text::new(bytes),
    })
}

fn put(cache: &mut Cache, hits: &[Key], key: Key, number: u32) -> Result<(), AllocError>
    requires { MayBeKept key }
{
    match cache.put(hits, key, number) {
        Ok(()) => Ok(()),
        Err(_) => Err(AllocError),
    }
}

/// Makes the call, and says whether what was wanted is there.
fn is_made(cache: &mut Cache, alloc: Global, call: &[u8], number: u32) -> Result<bool, AllocError> {
    if call.len() < 4 {
        return Ok(false);
    }
    let key = key_of(alloc, call[1], call[2], call[3])?;
    match call[0] {
        b'+' => put(cache, &[], key, number)?,
        b'!' => cache.touch(&key),
        b'-' => cache.drop_key(&key),
        b'~' => cache.drop_user(key.user),
        b'*' => cache.drop_all(),
        _ => {
            let wanted = match call.last() {
                Some(digit) => u32::from(digit.saturating_sub(b'0')),
                None => 0,
            };
            return Ok(cache.look(&key).unwrap_or(0) == wanted);
        }
    }
    Ok(true)
}

fn are_made(alloc: Global, case: &[u8]) -> Result<bool, AllocError> {
    let Some((size, calls)) = case.split_first() else {
        return Ok(false);
    };
    let mut cache = Cache::new(alloc, u32::from(size.saturating_sub(b'0')))?;
    let mut number: u32 = 1;
    for call in calls.split(|byte| *byte == b' ') {
        if !call.is_empty() && !is_made(&mut cache, alloc, call, number)? {
            return Ok(false);
        }
        if call.first() == Some(&b'+') {
            number = number.saturating_add(1);
        }
    }
    Ok(true)
}

#[test]
fn the_most_recent_keys_are_kept(rt: HostRuntime) -> Result<(), Fail> {
    for case in CALLS.split(|byte| *byte == b'|') {
        assert!(rt; are_made(rt.alloc(), case)?);
    }
    Ok(())
}

/// A cache of three to which `a`, `b` and `c` were put, in this order.
fn cache_of_three(alloc: Global) -> Result<Cache, AllocError> {
    let mut cache = Cache::new(alloc, 3)?;
    for user in *b"abc" {
        put(&mut cache, &[], key_of(alloc, b'p', b'1', user)?, 1)?;
    }
    Ok(cache)
}

fn keys_of(alloc: Global, users: &[u8]) -> Result<Vec<Key>, AllocError> {
    let mut keys = Vec::new(alloc);
    for user in users {
        keys.push(key_of(alloc, b'p', b'1', *user)?)?;
    }
    Ok(keys)
}

/// Whether of `a`, `b` and `c` this one alone falls off when `d` is put with these hits.
fn falls_off(alloc: Global, hits: &[u8], fallen: u8) -> Result<bool, AllocError> {
    let mut cache = cache_of_three(alloc)?;
    let hit_keys = keys_of(alloc, hits)?;
    put(&mut cache, &hit_keys, key_of(alloc, b'p', b'1', b'd')?, 2)?;
    for user in *b"abc" {
        if cache.look(&key_of(alloc, b'p', b'1', user)?).is_none() != (user == fallen) {
            return Ok(false);
        }
    }
    Ok(true)
}

#[test]
fn hits_come_first_in_order_before_the_key_that_is_put(rt: HostRuntime) -> Result<(), Fail> {
    for case in HITS.split(|byte| *byte == b'|') {
        let hits = case.split(|byte| *byte == b'>').next().unwrap_or(&[]);
        let fallen = case.last().copied().unwrap_or(0);
        assert!(rt; falls_off(rt.alloc(), hits, fallen)?);
    }
    Ok(())
}
