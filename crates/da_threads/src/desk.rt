// Where a thread is handed what it does next. Nothing is claimed of it.

use std::sync::{Condvar, Mutex, Wait};

// What lies on a desk.
#[derive(Drop)]
struct Tray<T> {
    job: Option<T>,
    closed: bool,
}

/// A place for one job.
#[derive(Drop)]
pub(crate) struct Desk<T> {
    tray: Mutex<Tray<T>>,
    rung: Condvar,
}

impl<T: Drop> Desk<T> {
    pub(crate) fn new() -> Desk<T> {
        Desk {
            tray: Mutex::new(Tray {
                job: None,
                closed: false,
            }),
            rung: Condvar::new(),
        }
    }

    /// Puts a job there. A job that still lies there is let go.
    pub(crate) fn put<R: Wait>(&self, rt: &R, job: T) {
        let mut tray = self.tray.lock(rt);
        tray.job = Some(job);
        drop(tray);
        self.rung.notify_one();
    }

    /// After the jobs so far there is none.
    pub(crate) fn close<R: Wait>(&self, rt: &R) {
        let mut tray = self.tray.lock(rt);
        tray.closed = true;
        drop(tray);
        self.rung.notify_one();
    }

    /// Waits for the next job. `None` once the desk is closed.
    pub(crate) fn take<R: Wait>(&self, rt: &R) -> Option<T> {
        let mut tray = self.rung.wait_while(rt, self.tray.lock(rt), |tray| {
            tray.job.is_none() && !tray.closed
        });
        tray.job.take()
    }
}
