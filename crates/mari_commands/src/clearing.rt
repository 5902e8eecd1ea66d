//! Clearing the runs of a day, each as a whole or island by island. Its text is written as it is made.

ghost use Rattle.std.specs.Prelude.{◌≡◌, Some};
ghost use Rattle.mari_market.specs.Clearing.{Clears, IsBudget, IsWorkerCount};
ghost use Rattle.mari_market.specs.Market.{IsValid};
ghost use Rattle.mari_io.specs.Outside.{Counts, Pages};
ghost use Rattle.mari_io.specs.declared.shelf.Fetch.TheVariants as fetch;
ghost use Rattle.mari_commands.specs.Outcome.{IsNoPage, IsOfWords, IsReady, IsReportable, ReportsDay, Says, day_status};
ghost use Rattle.mari_commands.specs.Splits.{command_by};

use crate::books::books_in;
use crate::outcome::{Job, Outcome, Way};
use mari_answers::Status;
use mari_day::{DayEnd, run_day};
use mari_io::{Shelf, Sink};
use mari_market::{Cleared, Clearer, Market};
use mari_split::split_day;
use mari_workers::{Alone, Crew, Turnstile, search};
use std::alloc::Global;
use std::sync::Wait;
use std::thread::Threads;

/// The status of a day, by how it ended.
fn status_of(end: DayEnd) -> Status
    ensures { result ≡ day_status end }
{
    match end {
        DayEnd::Done { unpublished, .. } => {
            if unpublished == 0 {
                Status::Done
            } else {
                Status::Unpublished
            }
        }
        DayEnd::WriteFault => Status::WriteFault,
        DayEnd::Memory => Status::Memory,
    }
}

/// Clears a day by this clearer. It returns if the clearer does.
fn clear_by<C: Clearer, K: Sink>(alloc: Global, job: &Job, clearer: &mut C, sink: &mut K) -> Status
    requires job { IsReady job.now }
    requires ready { C.ready clearer.old }
    ensures reports { ReportsDay job.now (K.taken sink.old) (K.taken sink.new) result }
    ensures cause { Counts (result ≡ Status.WriteFault) (K.faults sink.old) (K.faults sink.new) }
{
    match job.way {
        Way::Whole => status_of(run_day(alloc, &job.books, job.nodes, clearer, sink)),
        Way::Islands => status_of(split_day(alloc, &job.books, job.nodes, clearer, sink)),
    }
}

/// Clears a day by one worker, which is this thread. It waits for nobody.
pub fn clear_alone<K: Sink>(alloc: Global, job: &Job, sink: &mut K) -> Status
    requires { IsReady job.now }
    ensures reports { ReportsDay job.now (K.taken sink.old) (K.taken sink.new) result }
    ensures cause { Counts (result ≡ Status.WriteFault) (K.faults sink.old) (K.faults sink.new) }
{
    clear_by(alloc, job, &mut Alone, sink)
}

/// Clears a day by several workers in threads of their own. It may wait for them.
pub fn clear_together<K: Sink, G: Turnstile, R: Threads + Wait + Sync>(
    rt: &R,
    alloc: Global,
    job: &Job,
    sink: &mut K,
    turnstile: &G,
) -> Status
    requires { IsReady job.now }
    ensures reports { ReportsDay job.now (K.taken sink.old) (K.taken sink.new) result }
    ensures cause { Counts (result ≡ Status.WriteFault) (K.faults sink.old) (K.faults sink.new) }
{
    let workers = job.workers;
    let mut crew = Crew {
        run: |alloc: Global, market: &Market, budget: u32| -> Cleared
            requires { IsValid market.now × IsBudget budget × IsWorkerCount workers }
            ensures { Clears market.entry.now budget result }
        { search(rt, alloc, market, workers, budget, turnstile) },
    };
    clear_by(alloc, job, &mut crew, sink)
}

/// What comes of a folder whose day is to be cleared in this way.
pub fn to_clear<S: Shelf>(
    alloc: Global,
    shelf: &mut S,
    folder: &str,
    way: Way,
    nodes: u32,
    workers: u32,
) -> Outcome
    // Both numbers are such as a command may have.
    requires nodes { IsBudget nodes }
    requires workers { IsWorkerCount workers }

    // What is found of the folder's pages, where the shelf reports them.
    ensures same { S.pages shelf.new ≡ S.pages shelf.old }
    ensures reported { (reported : Pages) → S.pages shelf.old ≡ Some reported → Says (Some (command_by way folder.now nodes workers)) reported result }

    // What comes of the words on any shelf.
    ensures words { IsOfWords (Some (command_by way folder.now nodes workers)) result }
    ensures reportable { IsReportable result }

    // Why a page wasn't had.
    ensures failed { Counts (IsNoPage fetch.Failed result) (S.faults shelf.old) (S.faults shelf.new) }
    ensures missing { Counts (IsNoPage fetch.Missing result) (S.misses shelf.old) (S.misses shelf.new) }
    ensures too_long { Counts (IsNoPage fetch.TooLong result) (S.overs shelf.old) (S.overs shelf.new) }
{
    match books_in(alloc, shelf, folder) {
        Ok(books) => Outcome::Day(Job {
            books,
            way,
            nodes,
            workers,
        }),
        Err(outcome) => outcome,
    }
}
