use da_pool::Pool;
use std::alloc::{AllocError, Global};
use std::test::Fail;

/// Numbers and their requests.
const ADDED: [(u32, u32); 5] = [(5, 1), (3, 2), (9, 1), (1, 3), (4, 1)];

fn add(pool: &mut Pool, number: u32, request: u32) -> Result<(), AllocError> {
    if !pool.has(number) {
        pool.add(number, request)?;
    }
    Ok(())
}

fn pool_of(alloc: Global) -> Result<Pool, AllocError> {
    let mut pool = Pool::new(alloc);
    for (number, request) in ADDED {
        add(&mut pool, number, request)?;
    }
    Ok(pool)
}

#[test]
fn queries_are_taken_in_the_order_of_adding(rt: HostRuntime) -> Result<(), Fail> {
    let mut pool = pool_of(rt.alloc())?;
    for (number, _) in ADDED {
        assert!(rt; pool.take(7) == Some(number));
    }
    assert!(rt; pool.take(7).is_none());
    Ok(())
}

#[test]
fn the_first_taken_is_told_at_its_moment_until_it_ends(rt: HostRuntime) -> Result<(), Fail> {
    let mut pool = pool_of(rt.alloc())?;
    assert!(rt; pool.first_taken().is_none());
    for moment in [30, 10, 20] {
        pool.take(moment);
    }
    for first in [(30, 5), (10, 3), (20, 9)] {
        assert!(rt; pool.first_taken() == Some(first) && pool.end(first.1));
    }
    assert!(rt; pool.first_taken().is_none());
    Ok(())
}

#[test]
fn only_a_query_that_runs_is_ended(rt: HostRuntime) -> Result<(), Fail> {
    let mut pool = pool_of(rt.alloc())?;
    pool.take(1);
    pool.take(2);
    for (number, ran) in [(9, false), (3, true), (3, false), (7, false), (5, true)] {
        assert!(rt; pool.end(number) == ran);
    }
    assert!(rt; pool.take(3) == Some(9));
    Ok(())
}

#[test]
fn dropping_a_request_takes_out_what_waits_of_it(rt: HostRuntime) -> Result<(), Fail> {
    let mut pool = pool_of(rt.alloc())?;
    pool.take(1);
    for request in [1, 1, 4] {
        pool.drop_of(request);
    }
    for taken in [Some(3), Some(1), None] {
        assert!(rt; pool.take(2) == taken);
    }
    assert!(rt; pool.end(5) && !pool.end(9));
    Ok(())
}

#[test]
fn a_number_is_free_again_once_its_query_is_out(rt: HostRuntime) -> Result<(), Fail> {
    let mut pool = Pool::new(rt.alloc());
    for moment in 0..3 {
        add(&mut pool, 8, 1)?;
        pool.drop_of(1);
        add(&mut pool, 8, 2)?;
        assert!(rt; pool.take(moment) == Some(8) && pool.end(8));
    }
    Ok(())
}
