ghost use Rattle.std.specs.Prelude.{OnOk, OnErr};
ghost use Rattle.std.specs.Io.KnownBytes.{Appends};
ghost use Rattle.gl_base.specs.Counts.{HasCause};
ghost use Rattle.gl_cli.specs.Writing.{AppendsSome};

use gl_outside::{Outside, Sink};

/// Writes all of the bytes. Where a write fails, a front of them was written.
pub fn write_all<K: Sink>(sink: &mut K, bytes: &[u8]) -> Result<(), Outside>
    ensures ok { OnOk result (Appends (K.contents sink.old) (K.contents sink.new) bytes.now) }
    ensures err { OnErr result (AppendsSome (K.contents sink.old) (K.contents sink.new) bytes.now) }
    ensures cause { HasCause Outside.Failed (K.faults sink.old) (K.faults sink.new) result }
{
    let mut at = 0;
    while at < bytes.len() {
        at += sink.write(&bytes[at..])?;
    }
    Ok(())
}
