// How long something outside is waited for.

use libc::net::poll;
use libc::types::pollfd;
use std::io::{self, ErrorKind};
use std::time::{Clock, Duration, Instant};

/// How long something may be waited for.
pub trait Limit {
    /// The milliseconds that are left, at least 1, or -1 where there is no limit. An error of the kind `TimedOut` once
    /// none is left.
    fn left(&self) -> io::Result<i32>;
}

/// No limit.
#[derive(Clone, Copy)]
pub struct Unlimited;

impl Limit for Unlimited {
    fn left(&self) -> io::Result<i32> {
        Ok(-1)
    }
}

/// The moment until which something is waited for, by the monotonic clock.
#[derive(Drop)]
pub struct Deadline<'a, C> {
    clock: &'a C,
    start: Instant,
    limit: Duration,
}

impl<'a, C: Clock> Deadline<'a, C> {
    /// So many milliseconds from now on. An error where the clock can't be read.
    pub fn after(clock: &'a C, limit: u64) -> io::Result<Self> {
        Ok(Deadline {
            clock,
            start: Instant::now(clock)?,
            limit: Duration::from_millis(limit),
        })
    }
}

impl<'a, C: Clock> Limit for Deadline<'a, C> {
    fn left(&self) -> io::Result<i32> {
        match self.limit.checked_sub(self.start.elapsed(self.clock)?) {
            Some(left) if !left.is_zero() => Ok(whole_millis(left)),
            _ => Err(io::Error::from(ErrorKind::TimedOut)),
        }
    }
}

impl<'a, L: Limit> Limit for &'a L {
    fn left(&self) -> io::Result<i32> {
        (**self).left()
    }
}

// The milliseconds of this time, and at least 1.
fn whole_millis(left: Duration) -> i32 {
    i32::try_from(left.as_millis().max(1)).unwrap_or(i32::MAX)
}

/// Waits until the descriptor is ready for one of these events, or has failed.
pub fn await_ready<L: Limit>(fd: i32, events: i16, limit: &L) -> io::Result<()> {
    let mut asked = [pollfd {
        fd,
        events,
        revents: 0,
    }];
    if poll(&mut asked, limit.left()?) < 0 && os::errno() != libc::EINTR {
        return Err(io::Error::from_raw_os_error(os::errno()));
    }
    Ok(())
}
