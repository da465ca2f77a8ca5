//! Writing a text whole.

ghost use Rattle.std.specs.Prelude.{◌≤◌, OnOk, OnErr};
ghost use Rattle.sd_base.specs.Streams.{Rises, Appends};
ghost use Rattle.sd_top.specs.Output.{AppendsFront};

use sd_base::{Failed, Sink};

/// Writes the bytes. `Failed` comes only where the sink's count of faults rose; a front of the bytes is written then.
pub fn write_all<K: Sink>(sink: &mut K, bytes: &[u8]) -> Result<(), Failed>
    ensures ok { OnOk result (Appends (K.written sink.old) bytes.now (K.written sink.new)) }
    ensures err { OnErr result (AppendsFront (K.written sink.old) bytes.now (K.written sink.new)) }
    ensures cause { OnErr result (Rises (K.faults sink.old) (K.faults sink.new)) }
    ensures count { K.faults sink.old ≤ K.faults sink.new }
{
    let mut done = 0;
    while done < bytes.len() {
        match sink.put(&bytes[done..]) {
            Ok(n) => done += n,
            Err(_) => return Err(Failed),
        }
    }
    Ok(())
}
