//! The day of books whose runs are cleared island by island: its first line, a block for each run, and its last line.

ghost use Rattle.std.specs.Prelude.{◌≡◌, length};
ghost use Rattle.mari_io.specs.Outside.{Counts};
ghost use Rattle.mari_market.specs.Clearing.{IsBudget};
ghost use Rattle.mari_remain.specs.Accepted.{IsAccepted};
ghost use Rattle.mari_day.specs.Dated.{IsDated};
ghost use Rattle.mari_split.specs.Days.{EndsSplit};

use crate::run::{SplitDone, run_split};
use crate::split::SplitBlock;
use crate::text::{block_text, end_text, head_text};
use mari_day::{DayEnd, DaySoFar, Stop, write_day};
use mari_io::Sink;
use mari_market::Clearer;
use mari_progress::{Progress, run_count};
use mari_remain::Books;
use mari_units::Memory;
use std::alloc::Global;

/// What is kept of such a day between its blocks.
#[derive(Drop)]
struct SplitSoFar<'a> {
    books: &'a Books,
    budget: u32,
    progress: Progress,
}

impl<'a, C: Clearer> DaySoFar<C> for SplitSoFar<'a> {
    ghost use Rattle.mari_split.specs.Lines.{split_block_text, split_head};
    ghost use Rattle.mari_split.specs.Split.{IsSplitBlock};
    ghost use Rattle.mari_split.specs.Steps.{KeepsSplit, PrintsWholeSplit};

    /// The books, and the budget of nodes of each island.
    type Source = (Books, u32);

    type Block = SplitBlock;

    ghost of = { λ day. (day.books.now, day.budget) };

    ghost runs = { λ of. length of.0.runs.runs };

    ghost head_text = { λ of. split_head of.0.date of.0.quarters of.1 };

    ghost block_text = { λ of. split_block_text of.0.zones.zones };

    ghost IsNext = { λ of. IsSplitBlock of.0 of.1 };

    ghost Keeps = { λ day blocks. KeepsSplit day.books.now day.budget blocks day.progress };

    ghost IsWhole = { λ day. PrintsWholeSplit (day.books.now, day.budget) day.progress.published };

    ghost Ready = { C.ready };

    fn run_count(&self) -> u32 {
        run_count(self.books)
    }

    fn head(&self, alloc: Global) -> Result<Vec<u8>, Memory> {
        head_text(alloc, &self.books.date, self.books.quarters, self.budget)
    }

    fn next(&mut self, alloc: Global, run: u32, clearer: &mut C) -> Result<Vec<u8>, Memory> {
        let SplitDone { block, settled } = run_split(
            alloc,
            self.books,
            run,
            self.budget,
            &self.progress,
            clearer,
        )?;
        let text = block_text(alloc, &self.books.zones.zones, &block)?;
        drop(block);
        if let Some(settled) = settled {
            self.progress.add(self.books, run, settled);
        }
        Ok(text)
    }

    fn end(&self, alloc: Global) -> Result<Vec<u8>, Memory> {
        let published = self.progress.published;
        let unpublished = run_count(self.books) - published;
        end_text(alloc, published, unpublished)
    }
}

/// Clears the runs of these books in order, each island by island and each island within a whole budget of nodes, and
/// writes their day.
///
/// The first line, each block and the last line are one text each, written as soon as it is made. After a write fault
/// the sink has taken a first part of the text of a day part or of a day; when out of memory, the first line and whole
/// blocks, or nothing.
pub fn split_day<C: Clearer, K: Sink>(
    alloc: Global,
    books: &Books,
    budget: u32,
    clearer: &mut C,
    sink: &mut K,
) -> DayEnd
    // What is to be cleared, and by whom.
    requires accepted { IsAccepted books.now }
    requires dated { IsDated books.now }
    requires budget { IsBudget budget }
    requires ready { C.ready clearer.old }

    // What the sink has taken by the end, and why no more.
    ensures day { EndsSplit books.now budget (K.taken sink.old) (K.taken sink.new) result }
    ensures cause { Counts (result ≡ DayEnd.WriteFault) (K.faults sink.old) (K.faults sink.new) }

    // The clearer may clear on.
    ensures ready { C.ready clearer.new }
{
    let Ok(progress) = Progress::start(alloc, books) else {
        return DayEnd::Memory;
    };
    let mut day = SplitSoFar {
        books,
        budget,
        progress,
    };
    match write_day(alloc, &mut day, clearer, sink) {
        Ok(()) => DayEnd::Done {
            published: day.progress.published,
            unpublished: run_count(books) - day.progress.published,
        },
        Err(Stop::Sink) => DayEnd::WriteFault,
        Err(Stop::Memory) => DayEnd::Memory,
    }
}
