//! The scheduled runs of quarters, and links between bids of several quarters.
ghost use Rattle.std.specs.Prelude.{◌≡◌, ◌≤◌, ◌<◌, true, IfSome, is_some, length, position};
ghost use Rattle.std.specs.List.{list_any};
ghost use Rattle.mari_remain.specs.Accepted.{IsAccepted};
ghost use Rattle.mari_blocks.specs.Joint.{is_of_quarters as is_of_quarters_in, is_scheduled, lacks_run as lacks_run_in, links_across as links_across_in, names_of_quarters as names_of_quarters_in, reference_of as reference_in, run_of_quarter as run_of_in, scheduled_run_of};

use crate::blocks::is_within;
use mari_demands::Run;
use mari_links::BidLinks;
use mari_remain::{Books, bid_of, run_entry};
use mari_units::{Cents, MOST_QUARTERS, MOST_RUNS};

/// The number of a quarter's scheduled run, counted from 1, if it has one.
fn scheduled_run(runs: &[Run], quarter: u32) -> Option<u32>
    requires { length runs.now ≤ MOST_RUNS }
    ensures run { result ≡ scheduled_run_of runs.now quarter }
    ensures first { IfSome result (λ run. 1 ≤ run) }
    ensures last { IfSome result (λ run. run ≤ length runs.now) }
{
    match place_of_scheduled(runs, quarter) {
        Some(place) => Some(place as u32 + 1),
        None => None,
    }
}

/// The place of a quarter's scheduled run.
fn place_of_scheduled(runs: &[Run], quarter: u32) -> Option<usize>
    ensures place { result ≡ position (is_scheduled quarter) runs.now }
    ensures within { IfSome result (λ place. place < length runs.now) }
{
    runs.iter()
        .position(|run| run.quarter == quarter && !run.direct)
}

/// The number of the scheduled run of a quarter that has one.
pub(crate) fn run_of_quarter(books: &Books, quarter: u32) -> u32
    requires accepted { IsAccepted books.now }
    requires there { is_some (scheduled_run_of books.now.runs.runs quarter) ≡ true }
    ensures run { result ≡ run_of_in books.now.runs.runs quarter }
    ensures first { 1 ≤ result }
    ensures last { result ≤ length books.now.runs.runs }
{
    match scheduled_run(books.runs.runs.as_slice(), quarter) {
        Some(run) => run,
        None => unreachable!(),
    }
}

/// The reference price of a quarter that has a scheduled run, in cents per MWh.
pub(crate) fn reference_of(books: &Books, quarter: u32) -> Cents
    requires accepted { IsAccepted books.now }
    requires there { is_some (scheduled_run_of books.now.runs.runs quarter) ≡ true }
    ensures { result ≡ reference_in books.now quarter }
{
    run_entry(books, run_of_quarter(books, quarter)).reference
}

/// Whether one of the quarters has no scheduled run.
pub(crate) fn lacks_run(books: &Books, first: u32, last: u32) -> bool
    requires accepted { IsAccepted books.now }
    requires last { last ≤ MOST_QUARTERS }
    ensures { result ≡ lacks_run_in books.now first last }
{
    for quarter in first..last + 1 {
        if scheduled_run(books.runs.runs.as_slice(), quarter).is_none() {
            return true;
        }
    }
    false
}

/// Whether a bid is of one of the quarters.
fn is_of_quarters(books: &Books, first: u32, last: u32, bid: u32) -> bool
    ensures { result ≡ is_of_quarters_in books.now first last bid }
{
    is_within(first, last, bid_of(books.bids.bids.as_slice(), bid).quarter)
}

/// Whether one of these bids is of one of the quarters.
fn is_one_of_quarters(books: &Books, first: u32, last: u32, bids: &[u32]) -> bool
    ensures { result ≡ list_any (is_of_quarters_in books.now first last) bids.now }
{
    bids.iter()
        .any(|bid| is_of_quarters(books, first, last, *bid))
}

/// Whether links name a bid of one of the quarters.
fn names_of_quarters(books: &Books, first: u32, last: u32, links: &BidLinks) -> bool
    ensures { result ≡ names_of_quarters_in books.now first last links.now }
{
    is_one_of_quarters(books, first, last, links.needs.as_slice())
        || is_one_of_quarters(books, first, last, links.bars.as_slice())
        || is_one_of_quarters(books, first, last, links.technical.as_slice())
}

/// Whether a bid of one of the quarters has a link to a bid of one of them: it needs it, is barred by it, or has a
/// technical link to it.
pub(crate) fn links_across(books: &Books, first: u32, last: u32) -> bool
    requires { IsAccepted books.now }
    ensures { result ≡ links_across_in books.now first last }
{
    for (bid, links) in books.links.links.as_slice().iter().enumerate() {
        if is_of_quarters(books, first, last, bid as u32)
            && names_of_quarters(books, first, last, links)
        {
            return true;
        }
    }
    false
}
