//! Where bytes go.

ghost use Rattle.std.specs.Prelude.{◌≡◌, ◌≤◌, ◌⊎◌, ℕ, List, Option, length, IfOk};
ghost use Rattle.mari_io.specs.Outside.{Counts, taken_after, TookNothing, GaveError};

/// A write failed.
#[derive(Clone, Copy, Debug, PartialEq, Eq)]
pub struct Failed;

/// Where bytes go.
///
/// Its count goes up at each failed write, up to the last value of 64 bits, and never falls. A write that takes
/// nothing of a piece that isn't empty counts as failed, too.
pub trait Sink {
    /// The bytes taken so far, where the sink reports them.
    ghost taken: { Self → Option (List ℕ) };

    /// How often a write failed, or took nothing of a piece.
    ghost faults: { Self → ℕ };

    /// Takes the first bytes of the piece, and answers how many. After an error none was taken, where the sink reports
    /// what it takes; standard output may have taken first bytes.
    fn write(&mut self, piece: &[u8]) -> Result<usize, Failed>
        ensures bound { IfOk result (λ n. n ≤ length piece.now) }
        ensures taken { taken self.new ≡ taken_after (taken self.old) piece.now result }
        ensures cause { Counts (GaveError result ⊎ TookNothing piece.now result) (faults self.old) (faults self.new) };
}
