// Reading of a source to its end.

ghost use Rattle.da_stream.specs.Gather.{Gathers};

use da_outside::Source;
use std::alloc::Global;

const CHUNK: usize = 4096;

/// What came of reading a source to its end.
#[derive(Drop)]
pub enum Gathered {
    /// All its bytes.
    Whole(Vec<u8>),
    /// It has more bytes than were asked for.
    Long,
    /// It failed.
    ReadFault,
    /// Memory was wanted.
    NoMemory,
}

/// The bytes of a source, read to its end. `Long` exactly where they are more than `max`; the source is then read no
/// further. No more than `max` bytes and 4,096 are read in any case.
pub fn read_up_to<S: Source>(alloc: Global, source: &mut S, max: usize) -> Gathered
    ensures { Gathers max (S.state source.old) (S.state source.new) result }
{
    let mut bytes = Vec::new(alloc);
    let mut chunk = [0; CHUNK];
    'read: while bytes.len() <= max {
        match source.read(&mut chunk) {
            Ok(0) => return Gathered::Whole(bytes),
            Ok(count) => {
                if bytes.extend_from_slice(&chunk[..count]).is_err() {
                    return Gathered::NoMemory;
                }
            }
            Err(_) => return Gathered::ReadFault,
        }
    }
    Gathered::Long
}
