//! The first market of a generated day, by both solvers of a network.

ghost use Rattle.std.specs.Prelude.{IfOk};
ghost use Rattle.mari_market.specs.Market.{IsValid};
ghost use Rattle.mari_remain.specs.Accepted.{IsAccepted};

use crate::folder::plan;
use crate::same::same;
use mari_day::read_books;
use mari_flow::solve;
use mari_gates::prefix_feasible;
use mari_io::MemoryShelf;
use mari_market::{Activation, Market, Prefix};
use mari_paths::{SolveFault, Solved, WarmStart, solve_from};
use mari_remain::{Books, Remaining};
use mari_scenario::scenario_pages;
use mari_units::Items;
use std::alloc::Global;
use std::test::Fail;

/// The books of the day that number 1 generates.
fn generated_books(alloc: Global) -> Result<Books, Fail>
    ensures { IfOk result IsAccepted }
{
    let plan = plan(alloc, &[])?;
    let mut shelf = MemoryShelf::new(scenario_pages(alloc, 1)?, plan);
    let read = read_books(alloc, &mut shelf, "s");
    drop(shelf);
    match read {
        Ok(books) => Ok(books),
        Err(_fault) => Err("the pages are accepted".into()),
    }
}

/// The market of the first run of these books.
fn market_of(alloc: Global, books: &Books) -> Result<Market, Fail>
    requires { IsAccepted books.now }
    ensures { IfOk result IsValid }
{
    if books.runs.runs.as_slice().is_empty() {
        return Err("there are 24 runs".into());
    }
    let remaining = Remaining::start(alloc, books)?;
    let made = remaining.market_of(alloc, books, 1);
    drop(remaining);
    Ok(made?.market)
}

/// The market of the first run of that day: eight zones, 40 bids and eight demands.
fn first_market(alloc: Global) -> Result<Market, Fail>
    ensures { IfOk result IsValid }
{
    let books = generated_books(alloc)?;
    let market = market_of(alloc, &books);
    drop(books);
    market
}

/// An activation of these quantities and flows.
fn activation_of(
    alloc: Global,
    (orders, mw): (usize, u32),
    (borders, flow): (usize, i64),
) -> Result<Activation, Fail> {
    let mw = vec![in alloc; mw; orders]?;
    Ok(Activation {
        mw: Items::of(mw),
        flow: Items::of(vec![in alloc; flow; borders]?),
    })
}

/// The root of the tree of a market's prefixes.
const ROOT: Prefix = Prefix {
    length: 0,
    bits: [0; 8],
};

/// The welfare that a solver finds, if there is an optimum.
fn welfare_of(found: Result<Solved, SolveFault>) -> Option<u64> {
    match found {
        Ok(solved) => Some(solved.welfare),
        Err(_fault) => None,
    }
}

/// The welfare that the fast solver finds at the root from a start, and from a warm start that is made from it.
fn welfare_from(
    alloc: Global,
    market: &Market,
    start: Option<&Activation>,
) -> Result<[Option<u64>; 2], Fail>
    requires { IsValid market.now }
{
    if !prefix_feasible(market, &ROOT) {
        return Err("the first prefix is feasible".into());
    }
    let warm = WarmStart::of(alloc, market, start)?;
    Ok([
        welfare_of(solve_from(alloc, market, &ROOT, start)),
        welfare_of(warm.solve(alloc, market, &ROOT)),
    ])
}

/// What the fast solver finds from each start.
type Fast = [[Option<u64>; 2]; 4];

/// The welfare that the plain solver finds at the root, and those that the fast one finds from no start, from the
/// plain one's, and from these.
fn welfares(
    alloc: Global,
    market: &Market,
    first: &Activation,
    second: &Activation,
) -> Result<(u64, Fast), Fail>
    requires { IsValid market.now }
{
    if !prefix_feasible(market, &ROOT) {
        return Err("the first prefix is feasible".into());
    }
    let Ok(plain) = solve(alloc, market, &ROOT) else {
        return Err("there is an optimum".into());
    };
    let fast = [
        welfare_from(alloc, market, None)?,
        welfare_from(alloc, market, Some(&plain.activation))?,
        welfare_from(alloc, market, Some(first))?,
        welfare_from(alloc, market, Some(second))?,
    ];
    let welfare = plain.welfare;
    drop(plain);
    Ok((welfare, fast))
}

/// Those welfares, where the last two starts are too short, and run too much.
fn reported(alloc: Global, market: &Market) -> Result<(u64, Fast), Fail>
    requires { IsValid market.now }
{
    let orders = market.orders.as_slice().len();
    let borders = market.borders.as_slice().len();
    let too_short = activation_of(alloc, (0, 0), (0, 0))?;
    let too_much = activation_of(alloc, (orders, 99_999), (borders, -99_999))?;
    let reported = welfares(alloc, market, &too_short, &too_much);
    drop(too_much);
    drop(too_short);
    reported
}

#[test]
fn both_solvers_agree_from_any_start(rt: HostRuntime) -> Result<(), Fail> {
    let market = first_market(rt.alloc())?;
    let reported = reported(rt.alloc(), &market);
    drop(market);
    let (welfare, fast) = reported?;
    same(&rt, fast, [[Some(welfare); 2]; 4]);
    Ok(())
}
