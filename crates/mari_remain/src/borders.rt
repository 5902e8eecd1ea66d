//! The borders of a run, with what is left of their limits.

ghost use Rattle.std.specs.Prelude.{◌≡◌, ◌≤◌, ◌<◌, ◌≤ℤ◌, pos, IfOk, length, unsigned_abs};
ghost use Rattle.std.specs.List.{All};
ghost use Rattle.mari_remain.specs.Accepted.{IsAccepted};
ghost use Rattle.mari_remain.specs.FirstBlocks.{taken_in};
ghost use Rattle.mari_remain.specs.Lists.{run_numbered};
ghost use Rattle.mari_remain.specs.RunMarket.{at_least_0 as at_least_0_of, border_left as border_in, borders_left, ends_at, run_limits};

use crate::books::Books;
use crate::remaining::Remaining;
use mari_demands::Limits;
use mari_market::Border;
use mari_units::{MOST_FLOW, MOST_MW, Memory};
use mari_zones::BorderEnds;
use std::alloc::Global;

/// The limits that the files state for a border in a run.
pub(crate) fn limits_of(books: &Books, run: u32, border: u32, ends: BorderEnds) -> Limits
    // A run and a border of the folder's books.
    requires accepted { IsAccepted books.now }
    requires first { 1 ≤ run }
    requires last { run ≤ length books.now.runs.runs }
    requires border { border < length books.now.borders.borders }
    requires ends { ends ≡ ends_at books.now.borders.borders border }

    // Stated for the day or for that run, and no greater than a file may state them.
    ensures limits { result ≡ run_limits books.now run border }
    ensures limit { result.limit ≤ MOST_MW }
    ensures back { result.back ≤ MOST_MW }
{
    match &books.limits {
        None => Limits {
            limit: ends.limit,
            back: ends.back,
        },
        Some(book) => {
            let (limit, back) = book.of(run, border);
            Limits { limit, back }
        }
    }
}

/// A number, or 0 where it is below 0.
fn at_least_0(mw: i64) -> u32
    requires { mw ≤ℤ pos MOST_FLOW }
    ensures { result ≡ at_least_0_of mw }
{
    if mw < 0 { 0 } else { mw as u32 }
}

/// A border over which `flow` MW flowed before, with what is left of its limits.
fn border_left(ends: BorderEnds, limits: Limits, flow: i64) -> Border
    requires limit { limits.limit ≤ MOST_MW }
    requires back { limits.back ≤ MOST_MW }
    requires flow { unsigned_abs flow ≤ MOST_MW }
    ensures { result ≡ border_in ends limits flow }
{
    Border {
        from: ends.from,
        to: ends.to,
        limit: at_least_0(i64::from(limits.limit) - flow),
        back: at_least_0(i64::from(limits.back) + flow),
    }
}

/// The borders with what is left of their limits in a run.
pub(crate) fn borders_of(
    alloc: Global,
    books: &Books,
    remaining: &Remaining,
    run: u32,
    quarter: u32,
) -> Result<Vec<Border>, Memory>
    requires accepted { IsAccepted books.now }
    requires first { 1 ≤ run }
    requires last { run ≤ length books.now.runs.runs }
    requires quarter { quarter ≡ (run_numbered books.now run).quarter }
    requires small { All (λ flow. unsigned_abs flow ≤ MOST_MW) remaining.now.flow }
    ensures { IfOk result (λ left. left.items ≡ borders_left books.now (taken_in books.now remaining.now quarter) run) }
{
    let mut left = Vec::new(alloc);
    for (number, ends) in books.borders.borders.as_slice().iter().enumerate() {
        let flow = remaining.flow_of(quarter, number as u32);
        let limits = limits_of(books, run, number as u32, *ends);
        left.push(border_left(*ends, limits, flow))?;
    }
    Ok(left)
}
