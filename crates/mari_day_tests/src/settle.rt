//! Ledgers of small runs: what borders earn, and what operators and providers get; and the providers of bids.

ghost use Rattle.std.specs.Prelude.{IfOk};
ghost use Rattle.mari_remain.specs.Accepted.{IsAccepted};
ghost use Rattle.mari_settle.specs.Conditions.{HasSmallNumbers};

use crate::folder::{ONE_ZONE, Pages, TWO_ZONES, books};
use crate::same::{same, same_in};
use mari_bids::Bid;
use mari_market::{Activation, Prices};
use mari_progress::{Progress, heading, ledger_of, providers_of, run_count};
use mari_publish::Heading;
use mari_remain::Books;
use mari_settle::Ledger;
use mari_units::{Cents, Items};
use mari_welfare::{is_consistent, is_feasible};
use std::alloc::Global;
use std::test::Fail;

/// A border of 1 MW whose zones are a cent apart.
const A_CENT_APART: Pages = Pages {
    borders: b"from,to,limit,back\nA,B,1,0\n",
    bids: b"id,provider,zone,quarter,direction,price,least,greatest,kind\n\
        a1,P1,A,1,up,20.00,0,100,both\nb1,P2,B,1,up,20.01,0,100,both\n",
    demands: b"run,zone,mw,price\n1,B,5,\n",
    ..TWO_ZONES
};

/// The same with one operator at both ends.
const ONE_OPERATOR: Pages = Pages {
    zones: b"zone,operator\nA,T\nB,T\n",
    ..A_CENT_APART
};

/// A downward bid and a demand that has a price.
const DOWNWARD: Pages = Pages {
    bids: b"id,provider,zone,quarter,direction,price,least,greatest,kind\n\
        u1,P,Z,1,up,40.00,0,50,both\nd1,P,Z,1,down,42.00,0,20,both\n",
    runs: b"run,quarter,kind,reference\n1,1,scheduled,40.00\n",
    demands: b"run,zone,mw,price\n1,Z,30,45.00\n",
    ..ONE_ZONE
};

/// A folder, what its run's orders run, what flows over its borders, and the prices.
struct Run {
    folder: Pages,
    mw: &'static [u32],
    flow: &'static [i64],
    cents: &'static [i64],
}

/// A border of 50 MW that 80 MW of demand fill: 40.00 for each of 50 MW.
const CONGESTED: &Run = &Run {
    folder: TWO_ZONES,
    mw: &[50, 30, 80],
    flow: &[50],
    cents: &[2000, 6000],
};

const ODD: &Run = &Run {
    folder: A_CENT_APART,
    mw: &[1, 4, 5],
    flow: &[1],
    cents: &[2000, 2001],
};

/// What an operator pays, and its rent.
type Line = (i128, i128);

/// A ledger: a line for each operator, an amount for each provider, and a rent for each border.
struct Lines {
    operators: &'static [Line],
    providers: &'static [i128],
    rents: &'static [i128],
}

/// Runs and their ledgers.
const RUNS: &[(&str, &Run, Lines)] = &[
    (
        "two zones congested",
        CONGESTED,
        Lines {
            operators: &[(-100_000, 100_000), (300_000, 100_000)],
            providers: &[100_000, 180_000],
            rents: &[200_000],
        },
    ),
    (
        "an odd quarter-cent goes to the first zone's operator",
        ODD,
        Lines {
            operators: &[(-2000, 1), (2001, 0)],
            providers: &[2000, 8004],
            rents: &[1],
        },
    ),
    (
        "one operator at both ends gets the whole rent",
        &Run {
            folder: ONE_OPERATOR,
            mw: &[1, 4, 5],
            flow: &[1],
            cents: &[2000, 2001],
        },
        Lines {
            operators: &[(1, 1)],
            providers: &[2000, 8004],
            rents: &[1],
        },
    ),
    (
        "a downward bid costs its provider",
        &Run {
            folder: DOWNWARD,
            mw: &[50, 20, 30],
            flow: &[],
            cents: &[4000],
        },
        Lines {
            operators: &[(0, 0)],
            providers: &[120_000],
            rents: &[],
        },
    ),
];

/// How many lines of each kind a ledger has, and the first of them.
type Reported = (
    [usize; 3],
    [Option<Line>; 2],
    [Option<i128>; 2],
    Option<i128>,
);

/// The line of the operator of a number, if there is one.
fn line_at(ledger: &Ledger, number: usize) -> Option<Line> {
    let line = ledger.operators.as_slice().get(number)?;
    Some((line.payment.0, line.rent.0))
}

/// The amount of the provider of a number, if there is one.
fn amount_at(ledger: &Ledger, number: usize) -> Option<i128> {
    let amount = ledger.providers.as_slice().get(number)?;
    Some(amount.0)
}

/// The rent of the first border, if there is one.
fn first_rent(ledger: &Ledger) -> Option<i128> {
    let rent = ledger.rents.as_slice().first()?;
    Some(rent.0)
}

/// What is reported of a ledger.
fn reported(ledger: &Ledger) -> Reported {
    let counts = [
        ledger.operators.as_slice().len(),
        ledger.providers.as_slice().len(),
        ledger.rents.as_slice().len(),
    ];
    let operators = [line_at(ledger, 0), line_at(ledger, 1)];
    let providers = [amount_at(ledger, 0), amount_at(ledger, 1)];
    (counts, operators, providers, first_rent(ledger))
}

/// What is wanted of it.
fn wanted(lines: &Lines) -> Reported {
    let Lines {
        operators,
        providers,
        rents,
    } = lines;
    (
        [operators.len(), providers.len(), rents.len()],
        [operators.get(0).copied(), operators.get(1).copied()],
        [providers.get(0).copied(), providers.get(1).copied()],
        rents.first().copied(),
    )
}

/// The activation of a run.
fn activation_of(alloc: Global, run: &Run) -> Result<Activation, Fail> {
    let mw = run.mw.to_vec(alloc)?;
    Ok(Activation {
        mw: Items::of(mw),
        flow: Items::of(run.flow.to_vec(alloc)?),
    })
}

/// The prices of a run.
fn prices_of(alloc: Global, run: &Run) -> Result<Prices, Fail> {
    let cents = run.cents.iter().map(|price| Cents(*price)).collect(alloc)?;
    Ok(Prices {
        cents: Items::of(cents),
    })
}

/// The ledger of the first run with this activation, where it is feasible and the prices are consistent with it.
fn settled(
    alloc: Global,
    books: &Books,
    activation: &Activation,
    prices: &Prices,
) -> Result<Ledger, Fail>
    requires { IsAccepted books.now }
    ensures { IfOk result HasSmallNumbers }
{
    if run_count(books) == 0 {
        return Err("there is a run".into());
    }
    let progress = Progress::start(alloc, books)?;
    let made = progress.market_of(alloc, books, 1)?;
    if !is_feasible(&made.market, activation) || !is_consistent(&made.market, activation, prices) {
        return Err("the activation is feasible, and the prices are consistent".into());
    }
    let ledger = ledger_of(
        alloc,
        books,
        &made,
        prices,
        activation,
        progress.also(books, 1),
    );
    drop(made);
    drop(progress);
    Ok(ledger?)
}

/// The ledger of a run of these books, which is a scheduled one of the first quarter.
fn ledger_by(alloc: Global, books: &Books, run: &Run) -> Result<Ledger, Fail>
    requires { IsAccepted books.now }
    ensures { IfOk result HasSmallNumbers }
{
    let first = Heading {
        run: 1,
        quarter: 1,
        direct: false,
    };
    if heading(books, 1) != first {
        return Err("the first run is a scheduled one of the first quarter".into());
    }
    let activation = activation_of(alloc, run)?;
    let prices = prices_of(alloc, run)?;
    let ledger = settled(alloc, books, &activation, &prices);
    drop(prices);
    drop(activation);
    ledger
}

/// The ledger of a run.
fn ledger_in(alloc: Global, run: &Run) -> Result<Ledger, Fail>
    ensures { IfOk result HasSmallNumbers }
{
    let books = books(alloc, &run.folder)?;
    let ledger = ledger_by(alloc, &books, run);
    drop(books);
    ledger
}

/// What is reported of the ledger of a run.
fn reported_in(alloc: Global, run: &Run) -> Result<Reported, Fail> {
    let ledger = ledger_in(alloc, run)?;
    let reported = reported(&ledger);
    drop(ledger);
    Ok(reported)
}

#[test]
fn a_run_pays_operators_providers_and_borders(rt: HostRuntime) -> Result<(), Fail> {
    for (name, run, lines) in RUNS {
        same_in(&rt, name, reported_in(rt.alloc(), run)?, wanted(lines));
    }
    Ok(())
}

/// Adds a ledger to another of the same lengths.
fn add_up(sum: &mut Ledger, other: &Ledger)
    requires sum { HasSmallNumbers sum.old }
    requires other { HasSmallNumbers other.now }
{
    if sum.operators.as_slice().len() == other.operators.as_slice().len()
        && sum.providers.as_slice().len() == other.providers.as_slice().len()
        && sum.rents.as_slice().len() == other.rents.as_slice().len()
    {
        sum.add(other);
    }
}

/// What is reported of the sum of the ledgers of two runs.
fn reported_of_both(alloc: Global, run: &Run, other: &Run) -> Result<Reported, Fail> {
    let other = ledger_in(alloc, other)?;
    let mut sum = ledger_in(alloc, run)?;
    add_up(&mut sum, &other);
    drop(other);
    let reported = reported(&sum);
    drop(sum);
    Ok(reported)
}

/// The sums of the ledgers of a congested run and of one with an odd quarter-cent.
const SUMS: Lines = Lines {
    operators: &[(-102_000, 100_001), (302_001, 100_000)],
    providers: &[102_000, 188_004],
    rents: &[200_001],
};

#[test]
fn ledgers_of_two_runs_add_up(rt: HostRuntime) -> Result<(), Fail> {
    let reported = reported_of_both(rt.alloc(), CONGESTED, ODD)?;
    same(&rt, reported, wanted(&SUMS));
    Ok(())
}

/// A bid of a provider.
fn bid_of(provider: u32) -> Bid {
    Bid {
        provider,
        zone: 0,
        quarter: 1,
        up: true,
        price: Cents(0),
        least: 0,
        greatest: 1,
        both: true,
    }
}

#[test]
fn providers_stand_by_their_first_bids(rt: HostRuntime) -> Result<(), Fail> {
    let bids = [bid_of(3), bid_of(1), bid_of(3), bid_of(2)];
    let providers = providers_of(rt.alloc(), &bids, &[2, 1, 3, 0])?;
    same(&rt, providers.as_slice(), [3, 1, 2].as_slice());
    Ok(())
}
