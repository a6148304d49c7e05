ghost use Rattle.std.specs.Prelude.{OnOk, OnErr};
ghost use Rattle.std.specs.Io.KnownBytes.{Appends};
ghost use Rattle.cra_io.specs.Faults.{HasCause};
ghost use Rattle.commands.specs.Output.{TookPart};

use cra_io::{Failed, Sink};

/// Writes the whole text, in as many writes as the sink wants.
pub fn write_all<W: Sink>(sink: &mut W, text: &[u8]) -> Result<(), Failed>
    ensures ok { OnOk result (Appends (W.taken sink.old) (W.taken sink.new) text.now) }
    ensures part { OnErr result (TookPart (W.taken sink.old) (W.taken sink.new) text.now) }
    ensures cause { HasCause (W.faults sink.old) (W.faults sink.new) result }
{
    let mut done = 0;
    while done < text.len() {
        done += sink.write(&text[done..])?;
    }
    Ok(())
}
