//! The text of a day, made in memory.

ghost use Rattle.std.specs.Prelude.{◌≡◌, ◌≤◌, ◌⊎◌, Some, length, IfOk};
ghost use Rattle.mari_io.specs.Outside.{Counts, taken_after, TookNothing, GaveError};
ghost use Rattle.mari_remain.specs.Accepted.{IsAccepted};
ghost use Rattle.mari_day.specs.Dated.{IsDated};
ghost use Rattle.mari_day.specs.Day.{IsPrintedDay};
ghost use Rattle.mari_market.specs.Clearing.{IsBudget};

use crate::day::{DayEnd, run_day};
use mari_io::{Failed, Sink};
use mari_market::Clearer;
use mari_remain::Books;
use mari_units::{Items, Memory};
use std::alloc::Global;

/// A day as it is printed.
#[derive(Drop)]
pub struct PrintedDay {
    /// Its text.
    pub text: Items<u8>,
    /// How many of its runs are published.
    pub published: u32,
    /// How many are not.
    pub unpublished: u32,
}

/// A sink that keeps what it takes. A write for which there is no memory fails.
#[derive(Drop)]
struct TextSink {
    text: Vec<u8>,
    faults: u64,
}

impl Sink for TextSink {
    ghost taken = { λ s. Some s.text.items };

    ghost faults = { λ s. s.faults };

    fn write(&mut self, piece: &[u8]) -> Result<usize, Failed>
        ensures bound { IfOk result (λ n. n ≤ length piece.now) }
        ensures taken { Some self.new.text.items ≡ taken_after (Some self.old.text.items) piece.now result }
        ensures cause { Counts (GaveError result ⊎ TookNothing piece.now result) self.old.faults self.new.faults }
    {
        match self.text.extend_from_slice(piece) {
            Ok(()) => Ok(piece.len()),
            Err(_) => {
                self.faults = self.faults.saturating_add(1);
                Err(Failed)
            }
        }
    }
}

/// Clears the runs of these books in order, each within a budget of nodes, and gives the text of their day.
pub fn day_of<C: Clearer>(
    alloc: Global,
    books: &Books,
    budget: u32,
    clearer: &mut C,
) -> Result<PrintedDay, Memory>
    requires accepted { IsAccepted books.now }
    requires dated { IsDated books.now }
    requires budget { IsBudget budget }
    requires ready { C.ready clearer.old }
    ensures day { IfOk result (IsPrintedDay books.now budget) }
    ensures ready { C.ready clearer.new }
{
    let mut sink = TextSink {
        text: Vec::new(alloc),
        faults: 0,
    };
    match run_day(alloc, books, budget, clearer, &mut sink) {
        DayEnd::Done {
            published,
            unpublished,
        } => Ok(PrintedDay {
            text: Items::of(sink.text),
            published,
            unpublished,
        }),
        DayEnd::WriteFault | DayEnd::Memory => Err(Memory),
    }
}
