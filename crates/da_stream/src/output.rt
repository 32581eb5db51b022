// Writing of whole texts.

ghost use Rattle.da_stream.specs.Output.{Writes};

use da_outside::{Failed, Sink};

/// Writes the whole text. An error is a fault of the sink, which then took a front of the text.
pub fn write_all<K: Sink>(sink: &mut K, text: &[u8]) -> Result<(), Failed>
    ensures { Writes text.now (K.state sink.old) (K.state sink.new) result }
{
    let mut rest = text;
    while !rest.is_empty() {
        let count = sink.write(rest)?;
        rest = &rest[count..];
    }
    Ok(())
}
