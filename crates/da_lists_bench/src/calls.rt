// Each function fills what it is named for with so many entries, makes so many calls, and counts those that found something.

ghost use Rattle.std.specs.Prelude.{IfOk};
ghost use Rattle.da_cache.specs.Pairs.{MayBeKept};

use da_cache::{Cache, Key};
use da_delay::Delays;
use da_fields::{QueryKind, Text};
use da_pool::Pool;
use std::alloc::{AllocError, Global};

/// The key of the user with this number.
fn key_of(alloc: Global, number: u32) -> Result<Key, AllocError>
    ensures { IfOk result MayBeKept }
{
    let bytes = Vec::from_slice(alloc, &number.to_le_bytes())?;
    Ok(Key {
        kind: QueryKind::Pass,
        db: 1,
        user: Text::new(bytes),
    })
}

fn put_number(cache: &mut Cache, alloc: Global, number: u32) -> Result<(), AllocError> {
    match cache.put(&[], key_of(alloc, number)?, number) {
        Ok(()) => Ok(()),
        Err(_) => Err(AllocError),
    }
}

/// A cache that is full, with the keys of the first users.
fn full_cache(alloc: Global, size: u32) -> Result<Cache, AllocError> {
    let mut cache = Cache::new(alloc, size)?;
    for number in 0..size {
        put_number(&mut cache, alloc, number)?;
    }
    Ok(cache)
}

/// One of the first numbers, far from the one before.
fn scattered(number: u32, size: u32) -> u32 {
    number.wrapping_mul(7919).checked_rem(size).unwrap_or(0)
}

/// Asks for all keys by turns.
pub fn look(alloc: Global, size: u32, count: u32) -> Result<u32, AllocError> {
    let cache = full_cache(alloc, size)?;
    let mut found: u32 = 0;
    for number in 0..count {
        if cache
            .look(&key_of(alloc, scattered(number, size))?)
            .is_some()
        {
            found = found.wrapping_add(1);
        }
    }
    Ok(found)
}

/// Asks for the same thousand keys at most, however many there are.
pub fn look_again(alloc: Global, size: u32, count: u32) -> Result<u32, AllocError> {
    let cache = full_cache(alloc, size)?;
    let mut found: u32 = 0;
    for number in 0..count {
        if cache
            .look(&key_of(alloc, scattered(number, size.min(1_000)))?)
            .is_some()
        {
            found = found.wrapping_add(1);
        }
    }
    Ok(found)
}

/// Every other key is there, and for each of the others the last one falls off.
pub fn put(alloc: Global, size: u32, count: u32) -> Result<u32, AllocError> {
    let mut cache = full_cache(alloc, size)?;
    for number in 0..count {
        let of_old = scattered(number, size);
        let of_new = size.wrapping_add(number);
        put_number(
            &mut cache,
            alloc,
            if number % 2 == 0 { of_old } else { of_new },
        )?;
    }
    Ok(count)
}

fn filled_delays(alloc: Global, size: u32) -> Result<Delays, AllocError> {
    let mut delays = Delays::new(alloc);
    for number in 0..size {
        delays.push(u64::from(scattered(number, 1_000_003)), number)?;
    }
    Ok(delays)
}

/// Each pair that is pushed is removed.
pub fn push(alloc: Global, size: u32, count: u32) -> Result<u32, AllocError> {
    let mut delays = filled_delays(alloc, size)?;
    let mut found: u32 = 0;
    for number in 0..count {
        let due = u64::from(scattered(number, 1_000_003));
        delays.push(due, size)?;
        if delays.remove(due, size) {
            found = found.wrapping_add(1);
        }
    }
    Ok(found)
}

pub fn first_due(alloc: Global, size: u32, count: u32) -> Result<u32, AllocError> {
    let delays = filled_delays(alloc, size)?;
    let mut found: u32 = 0;
    for number in 0..count {
        if delays.first_due(u64::from(number)).is_some() {
            found = found.wrapping_add(1);
        }
    }
    Ok(found)
}

/// Adds the query, unless one of its number is there.
fn add(pool: &mut Pool, number: u32) -> Result<(), AllocError> {
    if pool.has(number) {
        return Ok(());
    }
    pool.add(number, number)
}

/// A pool of which half the queries run.
fn filled_pool(alloc: Global, size: u32) -> Result<Pool, AllocError> {
    let mut pool = Pool::new(alloc);
    for number in 0..size {
        add(&mut pool, number)?;
    }
    for number in 0..size / 2 {
        pool.take(u64::from(number));
    }
    Ok(pool)
}

/// Each time a query is added, one is taken, and one that runs is ended.
pub fn pool(alloc: Global, size: u32, count: u32) -> Result<u32, AllocError> {
    let mut pool = filled_pool(alloc, size)?;
    let mut found: u32 = 0;
    for number in 0..count {
        add(&mut pool, size.wrapping_add(number))?;
        pool.take(u64::from(number));
        let ended = match pool.first_taken() {
            Some((_, first)) => pool.end(first),
            None => false,
        };
        if ended {
            found = found.wrapping_add(1);
        }
    }
    Ok(found)
}
