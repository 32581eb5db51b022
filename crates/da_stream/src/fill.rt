// Reads of a source into a cutter of lines.

ghost use Rattle.std.specs.Prelude.{◌≡◌, ◌<◌, false};
ghost use Rattle.da_stream.specs.Fill.{Fills, FedBy};

use da_outside::Source;
use da_tabline::{LineFault, Lines};

const CHUNK: usize = 4096;

/// How a read ended.
#[derive(Clone, Copy, Drop)]
pub enum Fill {
    /// So many bytes were read and fed, and a line that is too long came among them or not.
    Fed { count: usize, is_long: bool },
    /// The source ended after a whole line.
    End,
    /// The source ended within a line.
    Cut,
    /// The source has more bytes than the budget allows.
    Much,
    /// The source failed.
    ReadFault,
    /// Memory was wanted.
    NoMemory,
}

fn feed(lines: &mut Lines, bytes: &[u8]) -> Fill
    requires { lines.old.is_long ≡ false }
    ensures { FedBy lines.old lines.new bytes.now result }
{
    match lines.feed(bytes) {
        Ok(()) => Fill::Fed {
            count: bytes.len(),
            is_long: false,
        },
        Err(LineFault::TooLong) => Fill::Fed {
            count: bytes.len(),
            is_long: true,
        },
        Err(LineFault::NoMemory) => Fill::NoMemory,
    }
}

/// Reads some bytes and feeds them. At most `budget` bytes are fed; where that is 0, one byte is asked for, to tell the
/// source's end from more.
pub fn read_into<S: Source>(source: &mut S, lines: &mut Lines, budget: usize) -> Fill
    requires { lines.old.is_long ≡ false }
    ensures { Fills (S.state source.old) (S.state source.new) lines.old lines.new budget result }
{
    let mut chunk = [0; CHUNK];
    let buffer = &mut chunk[..budget.max(1).min(CHUNK)];
    match source.read(buffer) {
        Err(_) => Fill::ReadFault,
        Ok(0) => {
            if lines.pending() == 0 {
                Fill::End
            } else {
                Fill::Cut
            }
        }
        Ok(count) => {
            if budget == 0 {
                Fill::Much
            } else {
                feed(lines, &buffer[..count])
            }
        }
    }
}
