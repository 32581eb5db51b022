// What was sent to a connection, read from a place on.

ghost use Rattle.std.specs.Prelude.{◌≡◌, ◌-◌, ◌++◌, min, length, take, drop};

/// What was copied of the bytes that were sent to a connection.
#[derive(Clone, Copy, Debug, Drop, PartialEq, Eq)]
pub struct Taken {
    /// How many bytes were copied.
    pub count: usize,
    /// No byte is left after these, and none will come.
    pub ended: bool,
}

/// Copies as many of the bytes from a place on as fit.
pub(crate) fn copy_from(bytes: &[u8], from: u64, buf: &mut [u8]) -> usize
    ensures count { result ≡ min (length buf.old) (length bytes.now - from) }
    ensures copied { buf.new ≡ take result (drop from bytes.now) ++ drop result buf.old }
{
    if from >= bytes.len() as u64 {
        return 0;
    }
    let rest = &bytes[from as usize..];
    let count = rest.len().min(buf.len());
    buf[..count].copy_from_slice(&rest[..count]);
    count
}
