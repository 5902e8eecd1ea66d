//! `generate NUMBER`: a generated day, cleared in memory, and its summary.

ghost use Rattle.std.specs.Prelude.{◌≤◌, IfOk};
ghost use lib.Chars.{codes};
ghost use Rattle.mari_io.specs.declared.shelf.Fetch.TheVariants as fetch;
ghost use Rattle.mari_market.specs.Clearing.{Clears, IsBudget};
ghost use Rattle.mari_market.specs.Market.{IsValid};
ghost use Rattle.mari_remain.specs.Accepted.{IsAccepted};
ghost use Rattle.mari_day.specs.Dated.{IsDated};
ghost use Rattle.mari_day.specs.Day.{IsPrintedDay};
ghost use Rattle.mari_day.specs.Reading.{HasBooks};
ghost use Rattle.mari_scenario.specs.Accepted.{AreAccepted};
ghost use Rattle.mari_scenario.specs.Pages.{scenario_at};
ghost use Rattle.mari_words.specs.declared.command.TheConstants.{USUAL_NODES};
ghost use Rattle.mari_commands.specs.Outcome.{IsSummarised};
ghost use Rattle.mari_commands.specs.Summary.{IsGenerated};

use crate::outcome::Outcome;
use crate::summary::summary_text;
use mari_day::{PrintedDay, day_of, read_books};
use mari_io::{FaultPlan, MemoryShelf};
use mari_market::{Cleared, Market};
use mari_publish::read_text;
use mari_remain::Books;
use mari_scenario::scenario_pages;
use mari_units::{Items, LAST_NUMBER, Memory};
use mari_words::{USUAL_NODES, USUAL_WORKERS};
use mari_workers::{Crew, Turnstile, search};
use std::alloc::Global;
use std::sync::Wait;
use std::thread::Threads;

/// The books of a generated day. Its pages are held and accepted, so only running out of memory stands in the way.
fn generated_books(alloc: Global, number: u32) -> Result<Books, Memory>
    requires { number ≤ LAST_NUMBER }
    ensures pages { IfOk result (λ books. AreAccepted (scenario_at number)) }
    ensures gives { IfOk result (HasBooks (scenario_at number) (codes "s")) }
    ensures accepted { IfOk result IsAccepted }
    ensures dated { IfOk result IsDated }
{
    let pages = scenario_pages(alloc, number)?;
    let plan = FaultPlan {
        calls: Items::of(Vec::new(alloc)),
    };
    let mut shelf = MemoryShelf::new(pages, plan);
    match read_books(alloc, &mut shelf, "s") {
        Ok(books) => Ok(books),
        Err(_) => Err(Memory),
    }
}

/// The text of a day, cleared with the usual budget of nodes by the usual number of workers. It may wait for them.
fn usual_day<G: Turnstile, R: Threads + Wait + Sync>(
    rt: &R,
    alloc: Global,
    books: &Books,
    turnstile: &G,
) -> Result<PrintedDay, Memory>
    requires accepted { IsAccepted books.now }
    requires dated { IsDated books.now }
    ensures { IfOk result (IsPrintedDay books.now USUAL_NODES) }
{
    let mut crew = Crew {
        run: |alloc: Global, market: &Market, budget: u32| -> Cleared
            requires { IsValid market.now × IsBudget budget }
            ensures { Clears market.entry.now budget result }
        { search(rt, alloc, market, USUAL_WORKERS, budget, turnstile) },
    };
    day_of(alloc, books, USUAL_NODES, &mut crew)
}

/// The summary of a generated day. Each of its runs has at most eight gates, whose search tree has at most 511 nodes,
/// so that every run is published.
fn summary<G: Turnstile, R: Threads + Wait + Sync>(
    rt: &R,
    alloc: Global,
    number: u32,
    turnstile: &G,
) -> Result<Vec<u8>, Memory>
    requires { number ≤ LAST_NUMBER }
    ensures { IfOk result (λ text. IsGenerated number text.items) }
{
    let books = generated_books(alloc, number)?;
    let day = match usual_day(rt, alloc, &books, turnstile) {
        Ok(day) => day,
        Err(Memory) => {
            drop(books);
            return Err(Memory);
        }
    };
    match read_text(alloc, day.text.as_slice()) {
        Ok(publication) => {
            let text = summary_text(alloc, number, &books, publication.blocks.as_slice());
            drop(publication);
            drop(day);
            drop(books);
            text
        }
        Err(_) => {
            drop(day);
            drop(books);
            Err(Memory)
        }
    }
}

/// What comes of a number whose day is generated.
pub fn generated<G: Turnstile, R: Threads + Wait + Sync>(
    rt: &R,
    alloc: Global,
    number: u32,
    turnstile: &G,
) -> Outcome
    requires { number ≤ LAST_NUMBER }
    ensures { IsSummarised number result }
{
    match summary(rt, alloc, number, turnstile) {
        Ok(text) => Outcome::Text(text),
        Err(Memory) => Outcome::Memory,
    }
}
