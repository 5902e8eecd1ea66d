//! The day of books in the second form: its first line, a block for each run, and the totals.

ghost use Rattle.std.specs.Prelude.{◌≡◌, length};
ghost use Rattle.mari_io.specs.Outside.{Counts};
ghost use Rattle.mari_market.specs.Clearing.{IsBudget};
ghost use Rattle.mari_remain.specs.Accepted.{IsAccepted};
ghost use Rattle.mari_day.specs.Dated.{IsDated};
ghost use Rattle.mari_reach_day.specs.Days.{EndsReach};

use crate::block::ReachBlock;
use crate::run::{ReachDone, run_reached};
use crate::text::{block_text, head_text};
use mari_day::{DaySoFar, Stop, end_text, write_day};
use mari_io::Sink;
use mari_progress::{Progress, run_count};
use mari_reach_text::one_if_first;
use mari_remain::Books;
use mari_units::Memory;
use std::alloc::Global;

/// How a day of the second form ended.
#[derive(Clone, Copy, Debug, PartialEq, Eq)]
pub enum ReachEnd {
    /// It was written whole.
    Done {
        /// How many of its runs have the first activation.
        first: u32,
        /// How many of its runs have one within a gap.
        within: u32,
    },
    /// A write failed.
    WriteFault,
    /// Out of memory.
    Memory,
}

/// What is kept of such a day between its blocks.
#[derive(Drop)]
struct ReachSoFar<'a> {
    books: &'a Books,
    budget: u32,
    progress: Progress,
    /// How many of the blocks have the first activation.
    first: u32,
}

impl<'a> DaySoFar<()> for ReachSoFar<'a> {
    ghost use Rattle.std.specs.Prelude.{⊤};
    ghost use Rattle.mari_reach_day.specs.Lines.{reach_block_text, reach_head};
    ghost use Rattle.mari_reach_day.specs.Reach.{IsReachBlock};
    ghost use Rattle.mari_reach_day.specs.Steps.{KeepsReach, PrintsWholeReach};

    /// The books, and the budget of nodes of each run.
    type Source = (Books, u32);

    type Block = ReachBlock;

    ghost of = { λ day. (day.books.now, day.budget) };

    ghost runs = { λ of. length of.0.runs.runs };

    ghost head_text = { λ of. reach_head of.0.date of.0.quarters of.1 };

    ghost block_text = { λ of. reach_block_text of.0 };

    ghost IsNext = { λ of. IsReachBlock of.0 of.1 };

    ghost Keeps = { λ day blocks. KeepsReach day.books.now day.budget blocks day.first day.progress };

    ghost IsWhole = { λ day. PrintsWholeReach (day.books.now, day.budget) day.first };

    ghost Ready = { λ _. ⊤ };

    fn run_count(&self) -> u32 {
        run_count(self.books)
    }

    fn head(&self, alloc: Global) -> Result<Vec<u8>, Memory> {
        head_text(alloc, &self.books.date, self.books.quarters, self.budget)
    }

    fn next(&mut self, alloc: Global, run: u32, _by: &mut ()) -> Result<Vec<u8>, Memory> {
        let ReachDone { block, settled } = run_reached(
            alloc,
            self.books,
            run,
            self.budget,
            &self.progress,
        )?;
        let text = block_text(alloc, self.books, &block)?;
        self.first += one_if_first(block.claim);
        drop(block);
        self.progress.add(self.books, run, settled);
        Ok(text)
    }

    fn end(&self, alloc: Global) -> Result<Vec<u8>, Memory> {
        let within = run_count(self.books) - self.first;
        end_text(alloc, self.books, &self.progress, self.first, within)
    }
}

/// Finds an answer for each run of these books in order, each within a budget of nodes, and writes their day.
///
/// The first line, each block and the totals are one text each, written as soon as it is made. After a write fault the
/// sink has taken a first part of the text of a day part or of a day; when out of memory, the first line and whole blocks, or
/// nothing.
pub fn reach_day<K: Sink>(alloc: Global, books: &Books, budget: u32, sink: &mut K) -> ReachEnd
    // What is to be answered.
    requires accepted { IsAccepted books.now }
    requires dated { IsDated books.now }
    requires budget { IsBudget budget }

    // What the sink has taken by the end, and why no more.
    ensures day { EndsReach books.now budget (K.taken sink.old) (K.taken sink.new) result }
    ensures cause { Counts (result ≡ ReachEnd.WriteFault) (K.faults sink.old) (K.faults sink.new) }
{
    let Ok(progress) = Progress::start(alloc, books) else {
        return ReachEnd::Memory;
    };
    let mut day = ReachSoFar {
        books,
        budget,
        progress,
        first: 0,
    };
    match write_day(alloc, &mut day, &mut (), sink) {
        Ok(()) => ReachEnd::Done {
            first: day.first,
            within: run_count(books) - day.first,
        },
        Err(Stop::Sink) => ReachEnd::WriteFault,
        Err(Stop::Memory) => ReachEnd::Memory,
    }
}
