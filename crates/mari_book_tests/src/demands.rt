//! The books of runs, demands and limits: what good pages say, and the first refusals of bad ones.

ghost use Rattle.std.specs.Prelude.{◌≤◌};
ghost use Rattle.mari_demands.specs.LimitPairs.{IsLimitTable};

use crate::pages::{BORDERS, Kind, RUNS, Row, ZONES, compare};
use crate::same::same;
use mari_demands::{Demand, DemandBook, LimitBook, Run, RunBook};
use mari_rows::BookFault;
use mari_units::Cents;
use mari_zones::{BorderBook, ZoneBook};
use std::alloc::Global;
use std::test::Fail;

#[test]
fn runs_in_order(rt: HostRuntime) -> Result<(), Fail> {
    let book = RunBook::read(rt.alloc(), RUNS, 2)?;
    let count = book.runs.as_slice().len();
    let second = book.runs.as_slice().get(1).copied();
    drop(book);
    let want = Run {
        quarter: 1,
        direct: true,
        reference: Cents(-50),
    };
    same(&rt, (count, second), (3, Some(want)));
    Ok(())
}

/// Pages of runs of a day of two quarter hours, with the line and the check that refuses each.
const REFUSED_RUNS: &[Row] = &[
    (b"run,quarter,kind\n", Err((1, 1))),
    (b"run,quarter,kind,reference\n1,1,x,y\n1\n", Err((3, 2))),
    (b"run,quarter,kind,reference\n1,1,x,\xff\n", Err((2, 3))),
    (b"run,quarter,kind,reference\n2,0,both,1\n", Err((2, 11))),
    (b"run,quarter,kind,reference\n2,0,direct,1\n", Err((2, 12))),
    (
        b"run,quarter,kind,reference\n1,2,direct,1\n2,-9,direct,1\n",
        Err((3, 12)),
    ),
    (
        b"run,quarter,kind,reference\n1,2,direct,1\n2,2,scheduled,1\n",
        Err((3, 12)),
    ),
    (b"run,quarter,kind,reference\n1,-1,direct,1\n", Err((2, 13))),
    (
        b"run,quarter,kind,reference\n1,3,direct,99999.01\n",
        Err((2, 13)),
    ),
    (
        b"run,quarter,kind,reference\n1,2,direct,99999.01\n",
        Err((2, 14)),
    ),
];

#[test]
fn each_refusal_of_runs(rt: HostRuntime) -> Result<(), Fail> {
    compare(&rt, rt.alloc(), Kind::Runs(2), &[], REFUSED_RUNS)
}

/// Ends of a page of 1,000 runs.
const MORE_RUNS: &[Row] = &[(b"", Ok(1_000)), (b"1001,1,direct,0\n", Err((1_002, 15)))];

#[test]
fn a_thousand_runs_and_no_more(rt: HostRuntime) -> Result<(), Fail> {
    let header = b"run,quarter,kind,reference\n".as_slice();
    let front = [(header, 1), (b"#,1,direct,0\n", 1_000)];
    compare(&rt, rt.alloc(), Kind::Runs(1), &front, MORE_RUNS)
}

/// Pages of demands, with the line and the check that refuses each.
const REFUSED_DEMANDS: &[Row] = &[
    (b"run,zone,price,mw\n", Err((1, 1))),
    (b"run,zone,mw,price\n9,X,1,x\n1\n", Err((3, 2))),
    (b"run,zone,mw,price\n9,X,1,\xff\n", Err((2, 3))),
    (b"run,zone,mw,price\n9,X,1,x\n", Err((2, 11))),
    (b"run,zone,mw,price\n4,X,1,\n", Err((2, 12))),
    (b"run,zone,mw,price\n3,X,100000,\n", Err((2, 13))),
    (b"run,zone,mw,price\n3,A,100000,\n", Err((2, 14))),
    (b"run,zone,mw,price\n3,A,1,-99999.01\n", Err((2, 14))),
];

/// The demands of a page of these runs.
fn demands_of(alloc: Global, zones: &ZoneBook, runs: &RunBook) -> Result<DemandBook, BookFault> {
    if runs.runs.as_slice().len() > 3 {
        return Err(BookFault::Memory);
    }
    let page = b"run,zone,mw,price\n1,B,80,\n3,A,-99999,60.5\n";
    DemandBook::read(alloc, page, runs, zones)
}

/// The demands of that page of the runs of `RUNS`.
fn two_demands(alloc: Global, zones: &ZoneBook) -> Result<DemandBook, BookFault> {
    let runs = RunBook::read(alloc, RUNS, 2)?;
    let demands = demands_of(alloc, zones, &runs);
    drop(runs);
    demands
}

/// The same in the zones of `ZONES`.
fn demands_in_zones(alloc: Global) -> Result<DemandBook, BookFault> {
    let zones = ZoneBook::read(alloc, ZONES)?;
    let demands = two_demands(alloc, &zones);
    drop(zones);
    demands
}

/// The demands of that page.
const TWO_DEMANDS: &[Demand] = &[
    Demand {
        run: 1,
        zone: 1,
        mw: 80,
        price: None,
    },
    Demand {
        run: 3,
        zone: 0,
        mw: -99_999,
        price: Some(Cents(6_050)),
    },
];

#[test]
fn demands_with_and_without_a_price(rt: HostRuntime) -> Result<(), Fail> {
    let book = demands_in_zones(rt.alloc())?;
    same(&rt, book.demands.as_slice(), TWO_DEMANDS);
    drop(book);
    compare(&rt, rt.alloc(), Kind::Demands, &[], REFUSED_DEMANDS)
}

/// Ends of a page of a demand of the second run and 512 of the first.
const MORE_DEMANDS: &[Row] = &[(b"", Ok(513)), (b"1,A,1,\n", Err((515, 15)))];

#[test]
fn five_hundred_and_twelve_demands_of_a_run_and_no_more(rt: HostRuntime) -> Result<(), Fail> {
    let front = [
        (b"run,zone,mw,price\n2,A,1,\n".as_slice(), 1),
        (b"1,A,1,\n", 512),
    ];
    compare(&rt, rt.alloc(), Kind::Demands, &front, MORE_DEMANDS)
}

/// Pages of limits, with the line and the check that refuses each.
const REFUSED_LIMITS: &[Row] = &[
    (b"run,from,to,back,limit\n", Err((1, 1))),
    (b"run,from,to,limit,back\n9,X,A,x,1\n1\n", Err((3, 2))),
    (b"run,from,to,limit,back\n9,X,A,1,\xff\n", Err((2, 3))),
    (b"run,from,to,limit,back\n9,X,A,1,x\n", Err((2, 11))),
    (b"run,from,to,limit,back\n4,X,A,1,1\n", Err((2, 12))),
    (b"run,from,to,limit,back\n0,B,A,1,1\n", Err((2, 12))),
    (b"run,from,to,limit,back\n3,A,B,100000,1\n", Err((2, 13))),
    (b"run,from,to,limit,back\n3,X,A,1,1\n", Err((2, 13))),
    (
        b"run,from,to,limit,back\n3,A,C,1,1\n2,A,C,1,1\n3,A,C,-1,1\n",
        Err((4, 14)),
    ),
    (b"run,from,to,limit,back\n3,A,C,-1,1\n", Err((2, 15))),
    (b"run,from,to,limit,back\n3,A,C,1,100000\n", Err((2, 15))),
];

/// The limits there and back of each of two borders in each of three runs.
type Table = [[(u32, u32); 2]; 3];

/// The limits of two borders in a run.
fn limits_in(limits: &LimitBook, run: u32) -> [(u32, u32); 2]
    requires table { IsLimitTable 3 2 limits.now }
    requires first { 1 ≤ run }
    requires last { run ≤ 3 }
{
    [limits.of(run, 0), limits.of(run, 1)]
}

/// The limits of a page of two borders and three runs, where there are as many.
fn table_of(
    alloc: Global,
    zones: &ZoneBook,
    borders: &BorderBook,
    runs: &RunBook,
) -> Result<Option<Table>, BookFault> {
    if borders.borders.as_slice().len() != 2 || runs.runs.as_slice().len() != 3 {
        return Ok(None);
    }
    let page = b"run,from,to,limit,back\n3,B,A,7,0\n1,A,C,99999,08\n01,B,A,-0,5\n";
    let limits = LimitBook::read(alloc, page, zones, borders, runs)?;
    let table = [
        limits_in(&limits, 1),
        limits_in(&limits, 2),
        limits_in(&limits, 3),
    ];
    drop(limits);
    Ok(Some(table))
}

/// The limits of that page of the runs of `RUNS`.
fn table_of_runs(
    alloc: Global,
    zones: &ZoneBook,
    borders: &BorderBook,
) -> Result<Option<Table>, BookFault> {
    let runs = RunBook::read(alloc, RUNS, 2)?;
    let table = table_of(alloc, zones, borders, &runs);
    drop(runs);
    table
}

/// The same of the borders of `BORDERS`.
fn table_of_borders(alloc: Global, zones: &ZoneBook) -> Result<Option<Table>, BookFault> {
    let borders = BorderBook::read(alloc, BORDERS, zones)?;
    let table = table_of_runs(alloc, zones, &borders);
    drop(borders);
    table
}

/// The same in the zones of `ZONES`.
fn table(alloc: Global) -> Result<Option<Table>, BookFault> {
    let zones = ZoneBook::read(alloc, ZONES)?;
    let table = table_of_borders(alloc, &zones);
    drop(zones);
    table
}

#[test]
fn limits_of_each_border_in_each_run(rt: HostRuntime) -> Result<(), Fail> {
    let want = [[(0, 5), (99_999, 8)], [(0, 0), (0, 0)], [(7, 0), (0, 0)]];
    same(&rt, table(rt.alloc())?, Some(want));
    compare(&rt, rt.alloc(), Kind::Limits, &[], REFUSED_LIMITS)
}
