//! The runs of a day.
ghost use Rattle.std.specs.Prelude.{◌≡◌, ◌≤◌, List, length, IfOk};
ghost use Rattle.mari_units.specs.Numbers.{whole_of};
ghost use Rattle.mari_rows.specs.Books.{book_in, first_failing, GivesBook};
ghost use Rattle.mari_rows.specs.Checks.{IsRead};
ghost use Rattle.mari_rows.specs.declared.rows.Row.{Row as Line};
ghost use Rattle.mari_demands.specs.RunChecks.{run_check_name, run_check_number};
ghost use Rattle.mari_demands.specs.Runs.{IsRunBook, comes_too_late as comes_too_late_in, is_direct as is_direct_in, is_number_below, last_quarter, run_checks, run_grammar, run_of};

use mari_rows::{
    BookFault, BookSoFar, FileCheck, LineFault, Row, cents_of, is_first_of, is_whole, number_of,
    read_book, writes_price,
};
use mari_units::{Cents, Items, MOST_PAGE, MOST_RUNS, NumberFault, read_mw};
use std::alloc::Global;

const COLUMNS: &str = "run,quarter,kind,reference";

/// A check of runs.csv.
#[derive(Clone, Copy, Debug, PartialEq, Eq)]
pub enum RunCheck {
    /// A field isn't written as its column asks.
    BadField,
    /// The runs aren't numbered from 1 on, or one comes before a run or a quarter that it should follow.
    RunsOutOfOrder,
    /// The day has no such quarter.
    Quarter,
    /// The reference lies beyond `CAP`.
    Range,
    /// There are more than `MOST_RUNS` runs.
    TooMany,
}

impl FileCheck for RunCheck {
    const ALL: &'static [Self] = &[
        RunCheck::BadField,
        RunCheck::RunsOutOfOrder,
        RunCheck::Quarter,
        RunCheck::Range,
        RunCheck::TooMany,
    ];

    ghost number = { run_check_number };

    ghost name = { run_check_name };

    #[tactic(auto, unfolding(crate::specs::RunChecks::run_check_name))]
    fn entry(self) -> (u8, &'static str) {
        match self {
            RunCheck::BadField => (11, "BadField"),
            RunCheck::RunsOutOfOrder => (12, "RunsOutOfOrder"),
            RunCheck::Quarter => (13, "Quarter"),
            RunCheck::Range => (14, "Range"),
            RunCheck::TooMany => (15, "TooMany"),
        }
    }
}

/// A run of a day.
#[derive(Clone, Copy, Debug, PartialEq, Eq)]
pub struct Run {
    /// Its quarter hour, from 1.
    pub quarter: u32,
    /// Whether it is direct, and not scheduled.
    pub direct: bool,
    /// Its reference price, in cents per MWh.
    pub reference: Cents,
}

/// The runs in the order of the file: run 1 first.
#[derive(Drop)]
pub struct RunBook {
    /// The runs; run 1 stands at place 0.
    pub runs: Items<Run>,
}

impl RunBook {
    /// The book of a page on a day of `quarters` quarters, or its first refusal.
    pub fn read(alloc: Global, runs: &[u8], quarters: u32) -> Result<RunBook, BookFault>
        requires { length runs.now ≤ MOST_PAGE }
        ensures book { GivesBook result (book_in (run_grammar quarters) runs.now) }
        ensures runs { IfOk result (IsRunBook quarters) }
    {
        let none = RunsSoFar {
            quarters,
            runs: Vec::new(alloc),
            last: None,
        };
        read_book(alloc, runs, COLUMNS, none)
    }
}

/// Whether a line is of a direct run. A word that is no kind gives none.
#[tactic(auto, unfolding(crate::specs::Runs::direct_word, crate::specs::Runs::scheduled_word))]
fn is_direct(line: &Row) -> Option<bool>
    ensures { result ≡ is_direct_in line.now }
{
    is_first_of(line.field(2), b"direct", b"scheduled")
}

/// Whether a text writes a whole number below another.
fn is_below(text: &[u8], bound: u32) -> bool
    ensures { result ≡ is_number_below bound (whole_of text.now) }
{
    match read_mw(text, 0, i64::MAX) {
        Ok(number) => number.0 < i64::from(bound),
        Err(NumberFault::OutOfRange) => matches!(text, [b'-', ..]),
        Err(NumberFault::NotANumber) => false,
    }
}

/// Whether a line comes too late after a run of this quarter.
fn comes_too_late(last: Option<u32>, line: &Row) -> bool
    ensures { result ≡ comes_too_late_in last line.now }
{
    match last {
        None => false,
        Some(quarter) => {
            is_below(line.field(1), quarter)
                || (!is_direct(line).unwrap_or(false)
                    && number_of(line.field(1), quarter, quarter).is_some())
        }
    }
}

/// The run of a line after `runs` runs, the last of which has this quarter, or the first check that fails.
fn read_run(quarters: u32, runs: usize, last: Option<u32>, line: &Row) -> Result<Run, RunCheck>
    ensures { (earlier : List Line) → runs ≡ length earlier → last ≡ last_quarter quarters earlier
        → IsRead run_check_number result (first_failing (run_checks quarters earlier line.now)) (run_of quarters line.now) }
{
    if runs >= MOST_RUNS {
        return Err(RunCheck::TooMany);
    }
    if !(is_whole(line.field(0))
        && is_whole(line.field(1))
        && writes_price(line.field(3))
        && is_direct(line).is_some())
    {
        return Err(RunCheck::BadField);
    }
    let number = runs as u32 + 1;
    if number_of(line.field(0), number, number).is_none() || comes_too_late(last, line) {
        return Err(RunCheck::RunsOutOfOrder);
    }
    let Some(quarter) = number_of(line.field(1), 1, quarters) else {
        return Err(RunCheck::Quarter);
    };
    let Some(reference) = cents_of(line.field(3)) else {
        return Err(RunCheck::Range);
    };
    Ok(Run {
        quarter,
        direct: is_direct(line).unwrap_or(false),
        reference,
    })
}

/// The runs of the lines so far, and the quarter of the last of them.
#[derive(Drop)]
struct RunsSoFar {
    quarters: u32,
    runs: Vec<Run>,
    last: Option<u32>,
}

impl BookSoFar for RunsSoFar {
    ghost use Rattle.mari_demands.specs.SoFar.{HoldsRuns};

    type Check = RunCheck;

    type Book = RunBook;

    ghost grammar = { λ so_far. run_grammar so_far.quarters };

    ghost Holds = { λ so_far lines. HoldsRuns lines so_far };

    fn take(&mut self, _alloc: Global, line: &Row) -> Result<(), LineFault<RunCheck>> {
        match read_run(self.quarters, self.runs.len(), self.last, line) {
            Ok(run) => {
                self.last = Some(run.quarter);
                Ok(self.runs.push(run)?)
            }
            Err(check) => Err(LineFault::Fails(check)),
        }
    }

    fn end(self, _alloc: Global) -> Result<RunBook, LineFault<RunCheck>> {
        Ok(RunBook {
            runs: Items::of(self.runs),
        })
    }
}
