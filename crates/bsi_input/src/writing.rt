//! Writes all bytes of a text to a writer (`write_bytes`).

ghost use Rattle.std.specs.Prelude.{OnErr, OnOk};
ghost use Rattle.std.specs.Io.KnownBytes.{Appends};
ghost use Rattle.bsi_input.specs.BufferedOutput.{AppendsPrefix};

use std::io::Write;

/// The writer failed, or took no byte.
#[derive(Clone, Copy, Debug, PartialEq, Eq)]
pub struct WriteFault;

/// Writes all bytes. After a fault, what went out is a prefix of them. It is not `write_all`, which does not
/// promise what a fault leaves.
pub fn write_bytes<W: Write>(writer: &mut W, bytes: &[u8]) -> Result<(), WriteFault>
    ensures ok { OnOk result (Appends (W.contents writer.old) (W.contents writer.new) bytes.now) }
    ensures prefix { OnErr result (AppendsPrefix (W.contents writer.old) (W.contents writer.new) bytes.now) }
{
    let mut at = 0;
    'bytes: while at < bytes.len() {
        match writer.write(&bytes[at..]) {
            Ok(0) | Err(_) => return Err(WriteFault),
            Ok(written) => at += written,
        }
    }
    Ok(())
}
