use da_delay::Delays;
use std::alloc::{AllocError, Global};
use std::test::Fail;

const PUSHED: [(u64, u32); 7] = [(30, 2), (10, 7), (30, 1), (10, 3), (20, 9), (0, 4), (10, 7)];

const IN_ORDER: [(u64, u32); 6] = [(0, 4), (10, 3), (10, 7), (20, 9), (30, 1), (30, 2)];

fn delays_of(alloc: Global, pairs: &[(u64, u32)]) -> Result<Delays, AllocError> {
    let mut delays = Delays::new(alloc);
    for pair in pairs {
        delays.push(pair.0, pair.1)?;
    }
    Ok(delays)
}

fn is_taken_first(delays: &mut Delays, pair: (u64, u32)) -> bool {
    delays.first_due(u64::MAX) == Some(pair) && delays.remove(pair.0, pair.1)
}

#[test]
fn pairs_come_by_due_and_then_by_request(rt: HostRuntime) -> Result<(), Fail> {
    let mut delays = delays_of(rt.alloc(), &PUSHED)?;
    for pair in IN_ORDER {
        assert!(rt; is_taken_first(&mut delays, pair));
    }
    assert!(rt; delays.first_due(u64::MAX).is_none());
    Ok(())
}

#[test]
fn a_pair_is_due_from_its_moment_on(rt: HostRuntime) -> Result<(), Fail> {
    let delays = delays_of(rt.alloc(), &[(12, 1), (10, 7)])?;
    for (moment, is_due) in [
        (11, true),
        (10, true),
        (9, false),
        (10, true),
        (0, false),
        (12, true),
    ] {
        assert!(rt; delays.first_due(moment).is_some() == is_due);
    }
    Ok(())
}

#[test]
fn a_pair_is_removed_once(rt: HostRuntime) -> Result<(), Fail> {
    let mut delays = delays_of(rt.alloc(), &PUSHED)?;
    for (request, was) in [(7, true), (7, false), (3, true), (9, false), (0, false)] {
        assert!(rt; delays.remove(10, request) == was);
    }
    Ok(())
}
