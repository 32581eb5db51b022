use crate::mark::Mark;
use crate::marked;
use std::test::Fail;
use std::time::{Duration, Instant};

// Whether the thread's marks are so many, each once and in its order.
fn has_all(marks: &[Mark], thread: u64, count: u64) -> bool {
    let mut next = 0u64;
    for mark in marks {
        if mark.thread == thread {
            if mark.number != next {
                return false;
            }
            next = next.saturating_add(1);
        }
    }
    next == count
}

#[test]
fn each_threads_marks_stand_once_and_in_its_order(rt: HostRuntime) -> Result<(), Fail> {
    let board = marked(&rt, rt.alloc(), 2, 1000)?;
    assert_eq!(rt; board.marks().len(), 2000);
    assert!(rt; has_all(board.marks(), 0, 1000) && has_all(board.marks(), 1, 1000));
    Ok(())
}

#[test]
fn eight_threads_take_many_turns_in_time(rt: HostRuntime) -> Result<(), Fail> {
    let start = Instant::now(&rt)?;
    let board = marked(&rt, rt.alloc(), 8, 12_500)?;
    assert_eq!(rt; board.marks().len(), 100_000);
    assert!(rt; start.elapsed(&rt)? < Duration::from_secs(20));
    Ok(())
}
