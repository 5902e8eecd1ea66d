//! A day that is printed block by block, in any form of text: its head, a block for each run, and its end, each written
//! as soon as it is made.
//!
//! A form of text is an `impl` of `DaySoFar`; `write_day` prints a day of any form.

ghost use Rattle.std.specs.Prelude.{◌≡◌, ◌≤◌, ◌+◌, ◌++◌, [], ℕ, List, IfOk, OnErr, Err, length};
ghost use Rattle.mari_io.specs.Outside.{Counts};
ghost use Rattle.mari_day.specs.Frame.{EndsText, IsPartBy, IsPartTextBy, MakesNext, Writes, part_text_by};

use mari_io::{Sink, write_all};
use mari_units::Memory;
use std::alloc::Global;

/// Why the writing of a day stops before its end.
#[derive(Clone, Copy, Debug, PartialEq, Eq)]
pub enum Stop {
    /// A write failed.
    Sink,
    /// Out of memory.
    Memory,
}

/// What is kept of a day between its blocks, and the texts that it makes. `W` is what is lent for the work on each run,
/// such as what clears its market.
pub trait DaySoFar<W> {
    /// What the day is printed of, which stays as it is.
    type Source;

    /// What is printed of a run.
    type Block;

    /// What this day is printed of.
    ghost of: { Self → Self.Source };

    /// How many runs there are.
    ghost runs: { Self.Source → ℕ };

    /// The text before the first block.
    ghost head_text: { Self.Source → List ℕ };

    /// The text of a block.
    ghost block_text: { Self.Source → Self.Block → List ℕ };

    /// The block is that of the run after these blocks.
    ghost IsNext: { Self.Source → List Self.Block → Self.Block → Type 0 };

    /// What is kept stands for these blocks.
    ghost Keeps: { Self → List Self.Block → Type 0 };

    /// The text is that of the whole day, for all blocks of which this is kept.
    ghost IsWhole: { Self → List ℕ → Type 0 };

    /// What is lent can be used for a run.
    ghost Ready: { W → Type 0 };

    /// How many runs there are.
    fn run_count(&self) -> u32
        requires { (blocks : List Self.Block) × Keeps self.now blocks }
        ensures { result ≡ runs (of self.now) };

    /// The text before the first block.
    fn head(&self, alloc: Global) -> Result<Vec<u8>, Memory>
        requires { Keeps self.now [] }
        ensures { IfOk result (λ text. text.items ≡ head_text (of self.now)) };

    /// Makes the block of a run, numbered from 1, adds it to what is kept, and gives its text. After an error it is used
    /// no more.
    fn next(&mut self, alloc: Global, run: u32, by: &mut W) -> Result<Vec<u8>, Memory>
        requires kept { (blocks : List Self.Block) × Keeps self.old blocks × (run ≡ length blocks + 1) }
        requires last { run ≤ runs (of self.old) }
        requires ready { Ready by.old }
        ensures same { of self.new ≡ of self.old }
        ensures next { (blocks : List Self.Block) → Keeps self.old blocks → run ≡ length blocks + 1
            → IfOk result (λ text. MakesNext (block_text (of self.old)) (IsNext (of self.old)) (Keeps self.new) blocks text.items) }
        ensures ready { Ready by.new };

    /// The text after the block of the last run.
    fn end(&self, alloc: Global) -> Result<Vec<u8>, Memory>
        requires { (blocks : List Self.Block) × Keeps self.now blocks × (length blocks ≡ runs (of self.now)) }
        ensures { (blocks : List Self.Block) → IsPartBy (runs (of self.now)) (IsNext (of self.now)) blocks → Keeps self.now blocks
            → length blocks ≡ runs (of self.now)
            → IfOk result (λ text. IsWhole self.now (part_text_by (head_text (of self.now)) (block_text (of self.now)) blocks ++ text.items)) };
}

/// Writes a text that was made, or reports that there was no memory for it.
fn write_made<K: Sink>(sink: &mut K, made: Result<Vec<u8>, Memory>) -> Result<(), Stop>
    ensures written { IfOk made (λ text. Writes text.items (K.taken sink.old) (K.taken sink.new) result) }
    ensures none { OnErr made ((result ≡ Err Stop.Memory) × (K.taken sink.new ≡ K.taken sink.old)) }
    ensures cause { Counts (result ≡ Err Stop.Sink) (K.faults sink.old) (K.faults sink.new) }
{
    match made {
        Ok(text) => match write_all(sink, &text) {
            Ok(()) => Ok(()),
            Err(_) => Err(Stop::Sink),
        },
        Err(_) => Err(Stop::Memory),
    }
}

/// Writes a day: its head, the blocks of all runs, in order, and its end. `by` is lent for each run.
///
/// After a write fault the sink has taken a first part of the text of a day part or of the day; when out of memory, the
/// head and whole blocks, or nothing.
pub fn write_day<W, D: DaySoFar<W>, K: Sink>(
    alloc: Global,
    day: &mut D,
    by: &mut W,
    sink: &mut K,
) -> Result<(), Stop>
    // The day before its first block, and what its runs need.
    requires none { D.Keeps day.old [] }
    requires ready { D.Ready by.old }

    // What the sink has taken by the end, and why no more.
    ensures ends { EndsText (IsPartTextBy (D.runs (D.of day.old)) (D.IsNext (D.of day.old)) (D.head_text (D.of day.old)) (D.block_text (D.of day.old)))
        (D.IsWhole day.new) (K.taken sink.old) (K.taken sink.new) result }
    ensures cause { Counts (result ≡ Err Stop.Sink) (K.faults sink.old) (K.faults sink.new) }

    // What the day is printed of is the same, and what was lent can be used again.
    ensures same { D.of day.new ≡ D.of day.old }
    ensures ready { D.Ready by.new }
{
    write_made(sink, day.head(alloc))?;
    for run in 0..day.run_count() {
        write_made(sink, day.next(alloc, run + 1, by))?;
    }
    write_made(sink, day.end(alloc))
}
