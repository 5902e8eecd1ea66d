//! The day of books: its head, a block for each run, and the totals.

ghost use Rattle.std.specs.Prelude.{◌≡◌, List, IfOk, length, map};
ghost use Rattle.std.specs.List.{All, range_with_len};
ghost use Rattle.mari_units.specs.Names.{IsName};
ghost use Rattle.mari_io.specs.Outside.{Counts};
ghost use Rattle.mari_publish.specs.Lines.{closing_lines_by};
ghost use Rattle.mari_publish.specs.Texts.{text_of_lines};
ghost use Rattle.mari_publish.specs.declared.publication.Block.{Block as PrintedBlock};
ghost use Rattle.mari_remain.specs.Accepted.{IsAccepted};
ghost use Rattle.mari_day.specs.Dated.{IsDated};
ghost use Rattle.mari_day.specs.Day.{EndsDay};
ghost use Rattle.mari_progress.specs.Money.{amount_line};
ghost use Rattle.mari_progress.specs.Progress.{IsProgress};
ghost use Rattle.mari_progress.specs.Totals.{operator_totals, provider_totals};
ghost use Rattle.mari_market.specs.Clearing.{IsBudget};

use crate::frame::{DaySoFar, Stop, write_day};
use crate::lines::{amount_lines, money_lines};
use crate::run::{RunDone, run_done};
use mari_bids::BidBook;
use mari_io::Sink;
use mari_market::Clearer;
use mari_progress::{Progress, run_count};
use mari_publish::{AmountLine, Block, block_text, closing_text, head_text};
use mari_remain::Books;
use mari_units::{Memory, Quarters};
use std::alloc::Global;

/// How a day ended.
#[derive(Clone, Copy, Debug, PartialEq, Eq)]
pub enum DayEnd {
    /// It was written whole.
    Done {
        /// How many of its runs are published.
        published: u32,
        /// How many of its runs aren't.
        unpublished: u32,
    },
    /// A write failed.
    WriteFault,
    /// Out of memory.
    Memory,
}

/// A line for each provider of the book of bids.
fn total_lines(
    alloc: Global,
    bids: &BidBook,
    amounts: &[Quarters],
) -> Result<Vec<AmountLine>, Memory>
    requires names { All IsName bids.now.providers }
    requires one_each { length amounts.now ≡ length bids.now.providers }
    ensures { IfOk result (λ lines. lines.items ≡ map (amount_line bids.now.providers amounts.now) (range_with_len 0 (length bids.now.providers))) }
{
    let places = all_places(alloc, bids.providers.len())?;
    amount_lines(alloc, &bids.providers, &places, amounts)
}

/// The places below a count.
fn all_places(alloc: Global, count: u32) -> Result<Vec<u32>, Memory>
    ensures { IfOk result (λ places. places.items ≡ range_with_len 0 count) }
{
    let mut places = Vec::new(alloc);
    for place in 0..count {
        places.push(place)?;
    }
    Ok(places)
}

/// The text after the last block of a day, in any form of text that has these lines: the totals over its published blocks,
/// and how many of its runs are of either kind.
pub fn end_text(
    alloc: Global,
    books: &Books,
    progress: &Progress,
    first: u32,
    others: u32,
) -> Result<Vec<u8>, Memory>
    requires accepted { IsAccepted books.now }
    requires dated { IsDated books.now }
    requires kept { (blocks : List PrintedBlock) × IsProgress books.now blocks progress.now }
    ensures { (blocks : List PrintedBlock) → IsProgress books.now blocks progress.now
        → IfOk result
        (λ text. text.items ≡ text_of_lines (closing_lines_by (operator_totals books.now blocks) (provider_totals books.now blocks) first others)) }
{
    let totals = &progress.totals;
    let operators = money_lines(alloc, &books.zones.operators, totals.operators.as_slice())?;
    let providers = total_lines(alloc, &books.bids, totals.providers.as_slice())?;
    closing_text(alloc, &operators, &providers, first, others)
}

/// What is kept of a day of books between its blocks.
#[derive(Drop)]
struct PublicationSoFar<'a> {
    books: &'a Books,
    budget: u32,
    progress: Progress,
}

impl<'a, C: Clearer> DaySoFar<C> for PublicationSoFar<'a> {
    ghost use Rattle.mari_publish.specs.Texts.{block_text_of, head_text_of};
    ghost use Rattle.mari_day.specs.Progress.{KeepsDay, PrintsWhole};
    ghost use Rattle.mari_day.specs.Published.{IsBlock};

    /// The books, and the budget of nodes of each run.
    type Source = (Books, u32);

    type Block = Block;

    ghost of = { λ day. (day.books.now, day.budget) };

    ghost runs = { λ of. length of.0.runs.runs };

    ghost head_text = { λ of. head_text_of of.0.date of.0.quarters of.1 };

    ghost block_text = { λ of. block_text_of };

    ghost IsNext = { λ of. IsBlock of.0 of.1 };

    ghost Keeps = { λ day blocks. KeepsDay day.books.now day.budget blocks day.progress };

    ghost IsWhole = { λ day. PrintsWhole (day.books.now, day.budget) day.progress.published };

    ghost Ready = { C.ready };

    fn run_count(&self) -> u32 {
        run_count(self.books)
    }

    fn head(&self, alloc: Global) -> Result<Vec<u8>, Memory> {
        head_text(alloc, &self.books.date, self.books.quarters, self.budget)
    }

    fn next(&mut self, alloc: Global, run: u32, clearer: &mut C) -> Result<Vec<u8>, Memory> {
        let RunDone { block, settled } = run_done(
            alloc,
            self.books,
            run,
            self.budget,
            &self.progress,
            clearer,
        )?;
        let text = block_text(alloc, &block)?;
        drop(block);
        if let Some(settled) = settled {
            self.progress.add(self.books, run, settled);
        }
        Ok(text)
    }

    fn end(&self, alloc: Global) -> Result<Vec<u8>, Memory> {
        let published = self.progress.published;
        let unpublished = run_count(self.books) - published;
        end_text(alloc, self.books, &self.progress, published, unpublished)
    }
}

/// Clears the runs of these books in order, each within a budget of nodes, and writes their day.
///
/// The head, each block and the totals are one text each, written as soon as it is made. After a write fault the sink
/// has taken a first part of the text of a day part or of a day; out of memory, the head and whole blocks, or
/// nothing.
pub fn run_day<C: Clearer, K: Sink>(
    alloc: Global,
    books: &Books,
    budget: u32,
    clearer: &mut C,
    sink: &mut K,
) -> DayEnd
    // What is to be cleared, and by whom.
    requires accepted { IsAccepted books.now }
    requires dated { IsDated books.now }
    requires budget { IsBudget budget }
    requires ready { C.ready clearer.old }

    // What the sink has taken by the end, and why no more.
    ensures day { EndsDay books.now budget (K.taken sink.old) (K.taken sink.new) result }
    ensures cause { Counts (result ≡ DayEnd.WriteFault) (K.faults sink.old) (K.faults sink.new) }

    // The clearer may clear on.
    ensures ready { C.ready clearer.new }
{
    let Ok(progress) = Progress::start(alloc, books) else {
        return DayEnd::Memory;
    };
    let mut day = PublicationSoFar {
        books,
        budget,
        progress,
    };
    match write_day(alloc, &mut day, clearer, sink) {
        Ok(()) => DayEnd::Done {
            published: day.progress.published,
            unpublished: run_count(books) - day.progress.published,
        },
        Err(Stop::Sink) => DayEnd::WriteFault,
        Err(Stop::Memory) => DayEnd::Memory,
    }
}
