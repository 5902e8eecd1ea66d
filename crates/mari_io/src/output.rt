//! A sink over standard output.

ghost use Rattle.std.specs.Prelude.{None, ◌≡◌, ◌≤◌, ◌⊎◌, ℕ, length, take, IfOk, OnErr};
ghost use Rattle.std.specs.Io.KnownBytes.{Appends};
ghost use Rattle.mari_io.specs.Outside.{Counts, taken_after, TookNothing, GaveError};
ghost use Rattle.mari_io.specs.System.{after_print};

use crate::{Failed, Sink};
use std::io;
use std::io::Write;
use std::marker::Model;

/// Standard output. It reports nothing: what arrived there is trusted. Contracts see its count.
#[derive(Drop)]
pub struct StdSink<R: Print + Drop> {
    rt: R,
    faults: u64,
}

impl<R: Print + Drop> Model for StdSink<R> {
    ghost use Rattle.mari_io.specs.System.{PrintCount};

    ghost Value = { PrintCount };

    ghost view = { λ s. record { faults = s.faults } };
}

impl<R: Print + Drop> StdSink<R> {
    /// A sink that writes by this runtime, and into which nothing was written yet.
    pub fn new(rt: R) -> StdSink<R>
        ensures { result ≡ record { faults = 0 } }
    {
        StdSink { rt, faults: 0 }
    }

    /// Counts what a write of this piece answered.
    fn count(&mut self, piece: &[u8], answer: &Result<usize, Failed>)
        ensures counts { self.new ≡ after_print self.old piece.now answer.now }
        ensures cause { Counts (GaveError answer.now ⊎ TookNothing piece.now answer.now) self.old.faults self.new.faults }
    {
        let took_nothing = match answer {
            Ok(count) => *count == 0 && !piece.is_empty(),
            Err(Failed) => true,
        };
        if took_nothing {
            self.faults = self.faults.saturating_add(1);
        }
    }
}

/// Writes and flushes, and answers how many bytes were taken. After an error the writer may have taken first bytes of
/// the piece.
fn write_out<W: Write>(out: &mut W, piece: &[u8]) -> Result<usize, Failed>
    ensures bound { IfOk result (λ n. n ≤ length piece.now) }
    ensures bytes { IfOk result (λ n. Appends (W.contents out.old) (W.contents out.new) (take n piece.now)) }
    ensures part { OnErr result ((n : ℕ) × Appends (W.contents out.old) (W.contents out.new) (take n piece.now)) }
{
    let Ok(count) = out.write(piece) else {
        return Err(Failed);
    };
    match out.flush() {
        Ok(()) => Ok(count),
        Err(_) => Err(Failed),
    }
}

impl<R: Print + Drop> Sink for StdSink<R> {
    ghost taken = { λ _. None };

    ghost faults = { λ s. s.faults };

    fn write(&mut self, piece: &[u8]) -> Result<usize, Failed>
        ensures bound { IfOk result (λ n. n ≤ length piece.now) }
        ensures taken { None ≡ taken_after None piece.now result }
        ensures cause { Counts (GaveError result ⊎ TookNothing piece.now result) self.old.faults self.new.faults }

        // A write that fails or takes nothing of a piece raises the count by one, and no other does.
        ensures counts { self.new ≡ after_print self.old piece.now result }
    {
        let answer = write_out(&mut io::writer(&self.rt), piece);
        self.count(piece, &answer);
        answer
    }
}
