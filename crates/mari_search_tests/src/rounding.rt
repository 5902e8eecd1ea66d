//! What a relaxed optimum comes to by rounding, as a worker offers it.

ghost use Rattle.std.specs.Prelude.{◌≡◌, pos};
ghost use Rattle.mari_incumbent.specs.Incumbent.{IsFresh};
ghost use Rattle.mari_market.specs.Market.{IsValid};
ghost use Rattle.mari_market.specs.Relaxation.{IsClosedWelfare};

use crate::same::same;
use crate::small::{DOWN, MarketRow, UP, market_of, opened};
use mari_incumbent::{Incumbent, Seat};
use mari_market::{Attained, Finding, Market, Prefix};
use mari_pool::{Pool, SearchName, Took};
use mari_units::Memory;
use mari_workers::{Root, Turnstile, Workspace, first_of, work};
use std::alloc::Global;
use std::marker::Brand;
use std::sync::{Condvar, Mutex, Wait};
use std::test::Fail;

/// Six bids, of which the second to the fourth are of one group, the fifth stands below the second and the sixth below
/// the third; a dearer bid, and a demand that is too large for the bids that may run together. The relaxed optimum of
/// the root is one: each of the six runs whole but the second, which runs 5 MW and so less than its least.
const SIX_GATES: MarketRow = MarketRow {
    limits: &[],
    orders: &[
        (0, UP, 10, 10, 3000, Some(0)),
        (0, UP, 6, 20, 4000, Some(1)),
        (0, UP, 6, 6, 3000, Some(2)),
        (0, UP, 8, 8, 3000, Some(3)),
        (0, UP, 1, 9, 3000, Some(4)),
        (0, UP, 1, 1, 3000, Some(5)),
        (0, UP, 0, 100, 5000, None),
        (0, DOWN, 0, 39, 9_999_900, None),
    ],
    gates: &[
        (None, None),
        (Some(7), None),
        (Some(7), None),
        (Some(7), None),
        (None, Some(1)),
        (None, Some(2)),
    ],
};

/// Examines the root, and finds no memory for any other node.
#[derive(Clone, Copy, Debug)]
struct RootAlone;

impl Turnstile for RootAlone {
    fn through(
        &self,
        alloc: Global,
        _worker: u32,
        market: &Market,
        prefix: &Prefix,
        root: &Root,
        workspace: &mut Workspace,
    ) -> Result<Finding, Memory> {
        if prefix.length > 0 {
            return Err(Memory);
        }
        root.examine_in(alloc, market, prefix, workspace)
    }
}

/// The bits of the gates whose orders run in what was offered, and its welfare, if anything was offered; and the node
/// that was given back, if it waits.
type Reported = (Option<(u64, u64)>, Option<u32>);

/// What is reported of what was offered.
fn offered(market: &Market, best: &Option<Attained>) -> Option<(u64, u64)> {
    match best {
        Some(best) => {
            let opened = opened(market.orders.as_slice(), best.activation.mw.as_slice());
            Some((opened, best.welfare))
        }
        None => None,
    }
}

/// The number of the next node, if one waits.
fn next<'m, N: SearchName>(mut pool: Pool<'m, N>) -> Option<u32> {
    match pool.take(0) {
        Took::Took(ticket) => Some(ticket.node),
        _ => None,
    }
}

/// What is reported of a worker that settles the root alone.
fn worked<'m, N: SearchName, R: Wait>(
    rt: &R,
    alloc: Global,
    market: &'m Market,
    incumbent: &Incumbent,
    pooled: Seat,
    seat: Seat,
) -> Result<Reported, Fail>
    requires name { (market.now ≡ N.market) × (N.budget ≡ 3) × (N.workers ≡ 1) × (incumbent.now ≡ N.incumbent) }
    requires market { IsValid market.now }
    requires closed { IsClosedWelfare market.now (pos N.incumbent.first) }
    requires pooled { IsFresh N.incumbent pooled }
    requires seat { IsFresh N.incumbent seat }
{
    let pool = Mutex::new(Pool::<N>::start(alloc, market, 3, 1, pooled)?);
    let bell = Condvar::new();
    let worked = work(
        rt, alloc, market, 0, &pool, &bell, incumbent, seat, &RootAlone,
    );
    let offered = offered(market, &worked.best);
    drop(worked);
    Ok((offered, next(pool.into_inner())))
}

/// What is reported of that in a market.
fn rounded_in<R: Wait>(rt: &R, alloc: Global, market: &Market) -> Result<Reported, Fail> {
    if !market.valid() {
        return Err("the market is valid".into());
    }
    let first = first_of(alloc, market)?;
    let (incumbent, mut seat) = Incumbent::start(alloc, first.welfare, 2)?;
    let pooled = incumbent.split(&mut seat);
    worked::<Brand, R>(rt, alloc, market, &incumbent, pooled, seat)
}

/// What is reported of the six bids.
fn rounded<R: Wait>(rt: &R, alloc: Global) -> Result<Reported, Fail> {
    let market = market_of(alloc, &SIX_GATES)?;
    let reported = rounded_in(rt, alloc, &market);
    drop(market);
    reported
}

// 39 MW of demand at 99,999.00, less 17 MW of the three bids at 30.00 and 22 MW at 50.00, is the welfare.
#[test]
fn what_runs_its_least_is_opened_as_far_as_it_may_be(rt: HostRuntime) -> Result<(), Fail> {
    let (offered, next) = rounded(&rt, rt.alloc())?;
    same(&rt, offered, Some((0b10_0101, 389_835_100)));
    same(&rt, next, Some(1));
    Ok(())
}
