// Runs over the lines of an input in memory.

ghost use Rattle.std.specs.Prelude.{◌≡◌, ⊤};

use crate::memory::{bytes_of, calls_of};
use da_outside::{MemSink, MemSource, Sink};
use da_stream::{Gathered, LineHandler, LinesEnd, read_up_to, run_lines, write_all};
use std::alloc::Global;
use std::process::Abort;

#[derive(Clone, Copy, Drop, PartialEq, Eq)]
enum Stop {
    Asked,
    WriteFault,
}

// Writes each line as it is, up to a line `stop`.
#[derive(Drop)]
struct Writer<'a, K> {
    output: &'a mut K,
}

impl<'a, K: Sink> LineHandler for Writer<'a, K> {
    type Stop = Stop;

    ghost same = { λ old new. new.output.ghost_name ≡ old.output.ghost_name };

    ghost takes = { λ _ _ _ _. ⊤ };

    ghost stops = { λ _ _ _ _ _. ⊤ };

    ghost use Rattle.std.proofs.Common.{rules};

    ghost same_as_itself = { λ x. Prim.search rules };

    ghost same_further = { λ x y z one two. Prim.search rules };

    fn take(&mut self, _number: u64, line: &[u8]) -> Result<(), Stop> {
        if line == b"stop".as_slice() {
            return Err(Stop::Asked);
        }
        write_all(self.output, line).map_err(|_| Stop::WriteFault)
    }
}

// What a run over this input is, whose lines have at most 4 bytes. The calls of these numbers fail, none where it is 0.
#[derive(Clone, Copy)]
struct Run<'a> {
    input: &'a [u8],
    read_fails: u64,
    write_fails: u64,
}

// Whether the run writes this and ends so.
fn ends_so<R: Abort>(
    rt: &R,
    alloc: Global,
    run: Run<'_>,
    written: &[u8],
    end: LinesEnd<Stop>,
) -> bool {
    let input = bytes_of(rt, alloc, run.input);
    let mut source = MemSource::new(input, calls_of(rt, alloc, &[run.read_fails]));
    let mut output = MemSink::new(alloc, calls_of(rt, alloc, &[run.write_fails]));
    let mut writer = Writer {
        output: &mut output,
    };
    let reported = run_lines(alloc, 4, &mut source, &mut writer);
    reported == end && output.bytes() == written
}

fn sound(input: &[u8]) -> Run<'_> {
    Run {
        input,
        read_fails: 0,
        write_fails: 0,
    }
}

#[test]
fn each_end_of_the_lines_is_told(rt: HostRuntime) {
    let alloc = rt.alloc();
    let cut = LinesEnd::Cut { line: 2 };
    let long = LinesEnd::TooLong { line: 2 };
    assert!(rt; ends_so(&rt, alloc, sound(b""), b"", LinesEnd::Done));
    assert!(rt; ends_so(&rt, alloc, sound(b"a\n\nbcde\n"), b"abcde", LinesEnd::Done));
    assert!(rt; ends_so(&rt, alloc, sound(b"a\nb"), b"a", cut));
    assert!(rt; ends_so(&rt, alloc, sound(b"a\nbcdef\n"), b"a", long));
    assert!(rt; ends_so(&rt, alloc, sound(b"a\nbcdef"), b"a", long));
}

#[test]
fn each_end_within_the_lines_is_told(rt: HostRuntime) {
    let alloc = rt.alloc();
    let stopped = LinesEnd::Stopped {
        line: 2,
        stop: Stop::Asked,
    };
    let unwritten = LinesEnd::Stopped {
        line: 2,
        stop: Stop::WriteFault,
    };
    let write = Run {
        write_fails: 2,
        ..sound(b"a\nb\n")
    };
    let read = Run {
        read_fails: 2,
        ..sound(b"a\nb\n")
    };
    assert!(rt; ends_so(&rt, alloc, sound(b"a\nstop\nb\n"), b"a", stopped));
    assert!(rt; ends_so(&rt, alloc, write, b"a", unwritten));
    assert!(rt; ends_so(&rt, alloc, read, b"ab", LinesEnd::ReadFault));
}

// Whether the bytes of a source are read whole, where at most this many are asked for.
fn is_whole<R: Abort>(rt: &R, alloc: Global, bytes: &[u8], max: usize) -> bool {
    let mut source = MemSource::new(bytes_of(rt, alloc, bytes), Vec::new(alloc));
    match read_up_to(alloc, &mut source, max) {
        Gathered::Whole(read) => read.as_slice() == bytes,
        Gathered::Long | Gathered::ReadFault | Gathered::NoMemory => false,
    }
}

#[test]
fn a_source_is_read_to_its_end_or_to_its_limit(rt: HostRuntime) {
    assert!(rt; is_whole(&rt, rt.alloc(), b"abc", 3));
    assert!(rt; !is_whole(&rt, rt.alloc(), b"abc", 2));
}
