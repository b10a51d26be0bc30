//! Bytes on their way into a sink.

ghost use Rattle.std.specs.Prelude.{◌≡◌, OnOk, OnErr};
ghost use Rattle.std.specs.Io.KnownBytes.{Appends};
ghost use Rattle.reading.specs.Failures.{FailsOnce};
ghost use Rattle.outlet.specs.Written.{SendsBeginning};

use crate::sink::Sink;
use std::io;

/// Writes all of these bytes, in as many writes as it takes. At an `Err` a beginning of them is written.
pub fn write_all<W: Sink>(sink: &mut W, bytes: &[u8]) -> io::Result<()>
    ensures ok { OnOk result (Appends (W.contents sink.old) (W.contents sink.new) bytes.now) }
    ensures err { OnErr result (SendsBeginning (W.contents sink.old) (W.contents sink.new) bytes.now) }
    ensures failures { OnOk result (W.failures sink.new ≡ W.failures sink.old) }
    ensures failed { OnErr result (FailsOnce (W.failures sink.old) (W.failures sink.new)) }
{
    let mut done = 0;
    while done < bytes.len() {
        match sink.write(&bytes[done..]) {
            Ok(count) => done += count,
            Err(e) => return Err(e),
        }
    }
    Ok(())
}
