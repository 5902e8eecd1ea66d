//! Writing a text until the sink has taken it whole.

ghost use Rattle.std.specs.Prelude.{◌≡◌, OnOk, OnErr, IsErr};
ghost use Rattle.mari_io.specs.Outside.{Counts};
ghost use Rattle.mari_io.specs.Taken.{TookPart, then_took};

use crate::sink::{Failed, Sink};

/// Writes the whole text. After an error the sink has taken a first part of it.
pub fn write_all<K: Sink>(sink: &mut K, text: &[u8]) -> Result<(), Failed>
    ensures whole { OnOk result (K.taken sink.new ≡ then_took (K.taken sink.old) text.now) }
    ensures part { OnErr result (TookPart (K.taken sink.old) (K.taken sink.new) text.now) }
    ensures cause { Counts (IsErr result) (K.faults sink.old) (K.faults sink.new) }
{
    let mut at = 0;
    while at < text.len() {
        let count = sink.write(&text[at..])?;
        if count == 0 {
            return Err(Failed);
        }
        at += count;
    }
    Ok(())
}
