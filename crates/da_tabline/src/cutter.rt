// Lines of a stream that comes in any pieces.

ghost use Rattle.std.specs.Prelude.{◌≡◌, ◌<◌, ◌≤◌, ◌+◌, ◌^◌, ◌++◌, ◌∷◌, ℕ, List, [], length, map, false, true, IfOk, MatchOption};
ghost use Rattle.da_base.specs.Words.{Bytes};
ghost use Rattle.da_tabline.specs.Parts.{Lacks};

use crate::parts::split_at_byte;
use std::alloc::{AllocError, Global};
use std::collections::VecDeque;
use std::marker::Model;
use std::mem;

/// Why bytes of a stream were not taken in.
#[derive(Clone, Copy, Drop, PartialEq, Eq)]
pub enum LineFault {
    /// A line has more bytes than are allowed.
    TooLong,
    /// Memory is wanted.
    NoMemory,
}

/// Cuts a stream into lines, in whatever pieces it comes. It holds the whole lines that were not taken yet, each without
/// its LF, and the open line, which has no LF yet.
#[derive(Drop)]
pub struct Lines {
    alloc: Global,
    max: usize,
    ready: VecDeque<Vec<u8>>,
    open_line: Vec<u8>,
    is_long: bool,
}

impl Model for Lines {
    ghost use Rattle.std.specs.Prelude.{ℕ, ◌<◌, ◌≤◌, length, map};
    ghost use Rattle.da_tabline.specs.Lines.{Cutter};
    ghost use Rattle.da_tabline.specs.Parts.{Lacks};

    ghost Value = { Cutter };

    ghost view = { λ l. record { max = l.max; ready = map (λ line. line.items) l.ready.items; rest = l.open_line.items; is_long = l.is_long } };

    ghost invariant = { λ l. (l.max ≤ 16384) × (length l.open_line.items ≤ l.max) × Lacks 10 l.open_line.items };
}

ghost use Rattle.da_tabline.specs.Lines.{new_cutter, after_feed, after_take, line_cut};
ghost use Rattle.da_tabline.specs.Feeding.{Feeds, Keeps};

impl Lines {
    /// A cutter before the first byte, whose lines have at most `max` bytes. It takes no memory.
    pub fn new(alloc: Global, max: usize) -> Lines
        requires least { 0 < max }
        requires most { max ≤ 16384 }
        ensures { result ≡ new_cutter max }
    {
        Lines {
            alloc,
            max,
            ready: VecDeque::new(alloc),
            open_line: Vec::new(alloc),
            is_long: false,
        }
    }

    /// Takes in the next bytes of the stream. `TooLong` exactly where a line, whole or open, has more than `max` bytes,
    /// in this call or an earlier one: the whole lines before it stay and can be taken, and nothing is kept of it and of
    /// what comes after it. At `NoMemory` nothing changes, and the same bytes may be fed again.
    pub fn feed(&mut self, bytes: &[u8]) -> Result<(), LineFault>
        ensures { Feeds self.old bytes.now self.new result }
    {
        if self.is_long {
            return Err(LineFault::TooLong);
        }
        match split_at_byte(bytes, b'\n') {
            None => self.lengthen(bytes),
            Some((end, more)) => self.finish(end, more),
        }
    }

    // Takes in bytes that have no LF.
    fn lengthen(&mut self, bytes: &[u8]) -> Result<(), LineFault>
        requires going { self.old.is_long ≡ false }
        requires no_end { Lacks 10 bytes.now }
        ensures { Feeds self.old bytes.now self.new result }
    {
        if bytes.len() > self.max - self.open_line.len() {
            self.give_up();
            return Err(LineFault::TooLong);
        }
        match self.open_line.extend_from_slice(bytes) {
            Ok(()) => Ok(()),
            Err(_) => Err(LineFault::NoMemory),
        }
    }

    // Takes in the end of the open line, its LF, and more bytes.
    fn finish(&mut self, end: &[u8], more: &[u8]) -> Result<(), LineFault>
        requires going { self.old.is_long ≡ false }
        requires no_end { Lacks 10 end.now }
        requires room { length more.now + 1 < 2 ^ 64 }
        ensures { Feeds self.old (end.now ++ 10 ∷ more.now) self.new result }
    {
        if end.len() > self.max - self.open_line.len() {
            self.give_up();
            return Err(LineFault::TooLong);
        }
        let Ok(cut) = cut_bytes(self.alloc, self.max, more) else {
            return Err(LineFault::NoMemory);
        };
        self.keep(end, cut)
    }

    // Ends the open line, and keeps what comes after it.
    fn keep(&mut self, end: &[u8], cut: Cut) -> Result<(), LineFault>
        requires going { self.old.is_long ≡ false }
        requires fits { length self.old.rest + length end.now ≤ self.old.max }
        requires open_fits { length cut.rest.items ≤ self.old.max }
        requires open_line { Lacks 10 cut.rest.items }
        requires few { length cut.lines.items + 1 < 2 ^ 64 }
        ensures { Keeps self.old (self.old.rest ++ end.now) (map (λ l. l.items) cut.lines.items) cut.rest.items cut.is_long self.new result }
    {
        let Cut {
            mut lines,
            rest,
            is_long,
        } = cut;
        if self.open_line.reserve(end.len()).is_err()
            || self.ready.reserve(lines.len() + 1).is_err()
        {
            return Err(LineFault::NoMemory);
        }
        self.open_line.extend_from_slice(end).unwrap();
        self.ready
            .push_back_reserved(mem::replace(&mut self.open_line, rest));
        self.ready.append(&mut lines).unwrap();
        self.is_long = is_long;
        if is_long {
            Err(LineFault::TooLong)
        } else {
            Ok(())
        }
    }

    // Keeps nothing of a line that is too long, and takes in nothing more.
    fn give_up(&mut self)
        ensures { self.new ≡ record self.old { rest = []; is_long = true } }
    {
        self.open_line = Vec::new(self.alloc);
        self.is_long = true;
    }

    /// The first whole line that was not taken yet, without its LF. `None` exactly where there is none. It takes no
    /// memory.
    pub fn next(&mut self) -> Option<Vec<u8>>
        ensures line { MatchOption result (self.old.ready ≡ []) (λ line. self.old.ready ≡ line.items ∷ self.new.ready) }
        ensures after { self.new ≡ after_take self.old }
    {
        self.ready.pop_front()
    }

    /// How many bytes the open line has.
    pub fn pending(&self) -> usize
        ensures { result ≡ length self.now.rest }
    {
        self.open_line.len()
    }
}

// What bytes are cut into: whole lines, the open line after them, and whether too long a line comes there.
#[derive(Drop)]
struct Cut {
    lines: VecDeque<Vec<u8>>,
    rest: Vec<u8>,
    is_long: bool,
}

fn cut_bytes(alloc: Global, max: usize, bytes: &[u8]) -> Result<Cut, AllocError>
    ensures cut { IfOk result (λ c. record { lines = map (λ l. l.items) c.lines.items; rest = c.rest.items; is_long = c.is_long } ≡ line_cut max bytes.now) }
    ensures few { IfOk result (λ c. length c.lines.items ≤ length bytes.now) }
{
    let mut lines = VecDeque::new(alloc);
    let mut left = bytes;
    while let Some((line, more)) = split_at_byte(left, b'\n') {
        if line.len() > max {
            return Ok(Cut {
                lines,
                rest: Vec::new(alloc),
                is_long: true,
            });
        }
        lines.push_back(Vec::from_slice(alloc, line)?)?;
        left = more;
    }
    if left.len() > max {
        return Ok(Cut {
            lines,
            rest: Vec::new(alloc),
            is_long: true,
        });
    }
    Ok(Cut {
        lines,
        rest: Vec::from_slice(alloc, left)?,
        is_long: false,
    })
}
