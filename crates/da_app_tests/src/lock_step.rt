// Each line of an input is answered before the next is read: a live peer sends its next line only then.

ghost use Rattle.std.specs.Prelude.{None};

use crate::runs::{settings_of, words_of};
use da_app::{Status, run_drive, run_worker};
use da_outside::{Failed, Sink, Source};
use std::alloc::Global;
use std::process::Abort;
use std::sync::atomic::{AtomicUsize, Ordering};

const SETTINGS: &[u8] = b"failure_delay = 0\n";

// Each line is answered by one line.
const EVENTS: [&[u8]; 3] = [b"1000 take\n", b"1001 take\n", b"1002 take\n"];

const QUERIES: [&[u8]; 3] = [
    b"PASS\t1\t1\talice\n",
    b"PASS\t2\t1\tbob\n",
    b"USER\t3\t1\talice\n",
];

// Gives one line at each read, and fails where not all lines before it are answered.
#[derive(Drop)]
struct Asker<'a> {
    lines: &'a [&'a [u8]],
    asked: usize,
    answered: &'a AtomicUsize,
    faults: u64,
}

impl<'a> Source for Asker<'a> {
    ghost state = { λ asker. record { left = None; faults = asker.faults } };

    fn read(&mut self, buf: &mut [u8]) -> Result<usize, Failed> {
        if self.answered.load(Ordering::SeqCst) < self.asked {
            self.faults = self.faults.saturating_add(1);
            return Err(Failed);
        }
        let Some(line) = self.lines.get(self.asked) else {
            return Ok(0);
        };
        let count = line.len().min(buf.len());
        buf[..count].copy_from_slice(&line[..count]);
        self.asked = self.asked.saturating_add(1);
        Ok(count)
    }
}

// Counts the lines that it takes.
#[derive(Drop)]
struct Counter<'a> {
    answered: &'a AtomicUsize,
}

impl<'a> Sink for Counter<'a> {
    ghost state = { λ _. record { contents = None; faults = 0 } };

    fn write(&mut self, piece: &[u8]) -> Result<usize, Failed> {
        let ends = piece.iter().filter(|byte| **byte == b'\n').count();
        self.answered.fetch_add(ends, Ordering::SeqCst);
        Ok(piece.len())
    }
}

// Whether the command of this name answers the three lines, each before the next is read.
fn keeps_step<R: Abort>(rt: &R, alloc: Global, name: &str, lines: &[&[u8]]) -> bool {
    let words = words_of(rt, alloc, &[name, "settings"]);
    let mut files = settings_of(rt, alloc, SETTINGS);
    let answered = AtomicUsize::new(0);
    let mut input = Asker {
        lines,
        asked: 0,
        answered: &answered,
        faults: 0,
    };
    let mut output = Counter {
        answered: &answered,
    };
    let status = if name == "drive" {
        run_drive(alloc, &words, &mut files, &mut input, &mut output)
    } else {
        run_worker(alloc, &words, &mut files, &mut input, &mut output)
    };
    matches!(status, Status::Done) && answered.load(Ordering::SeqCst) == 3
}

#[test]
fn an_event_is_answered_before_the_next_is_read(rt: HostRuntime) {
    assert!(rt; keeps_step(&rt, rt.alloc(), "drive", &EVENTS));
}

#[test]
fn a_query_is_answered_before_the_next_is_read(rt: HostRuntime) {
    assert!(rt; keeps_step(&rt, rt.alloc(), "worker", &QUERIES));
}
