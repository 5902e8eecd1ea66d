//! A worker prunes by what another one has offered.

ghost use Rattle.std.specs.Prelude.{◌≡◌, pos};
ghost use Rattle.mari_incumbent.specs.Incumbent.{IsFresh};
ghost use Rattle.mari_market.specs.Market.{IsValid};
ghost use Rattle.mari_market.specs.Relaxation.{IsClosedWelfare};

use crate::same::same;
use crate::searches::one_of;
use crate::small::{OVERSIZED, market_of};
use mari_incumbent::{Incumbent, Seat};
use mari_market::{Market, PartItem};
use mari_pool::{Pool, SearchName};
use mari_workers::{FreeTurnstile, first_of, work};
use std::alloc::Global;
use std::marker::Brand;
use std::sync::{Condvar, Mutex, Wait};
use std::test::Fail;

/// How many nodes a worker makes, and the item of the one where it is one.
type Reported = (usize, Option<PartItem>);

/// What a worker makes of a pool.
fn made<'m, N: SearchName, R: Wait>(
    rt: &R,
    alloc: Global,
    market: &'m Market,
    incumbent: &Incumbent,
    pooled: Seat,
    seat: Seat,
) -> Result<Reported, Fail>
    requires name { (market.now ≡ N.market) × (N.budget ≡ 3) × (N.workers ≡ 1) × (incumbent.now ≡ N.incumbent) }
    requires market { IsValid market.now }
    requires closed { IsClosedWelfare market.now (pos N.incumbent.first) }
    requires pooled { IsFresh N.incumbent pooled }
    requires seat { IsFresh N.incumbent seat }
{
    let pool = Mutex::new(Pool::<N>::start(alloc, market, 3, 1, pooled)?);
    let bell = Condvar::new();
    let worked = work(
        rt,
        alloc,
        market,
        0,
        &pool,
        &bell,
        incumbent,
        seat,
        &FreeTurnstile,
    );
    drop(worked);
    let pool = pool.into_inner();
    let part = pool.part(alloc);
    drop(pool);
    Ok(one_of(&part?))
}

/// What a worker makes in a market, where another one has offered this welfare before.
fn made_after<R: Wait>(
    rt: &R,
    alloc: Global,
    market: &Market,
    welfare: u64,
) -> Result<Reported, Fail> {
    if !market.valid() {
        return Err("the market is valid".into());
    }
    let first = first_of(alloc, market)?;
    let (incumbent, mut other) = Incumbent::start(alloc, first.welfare, 3)?;
    let pooled = incumbent.split(&mut other);
    let seat = incumbent.split(&mut other);
    incumbent.offer(&mut other, welfare);
    made::<Brand, R>(rt, alloc, market, &incumbent, pooled, seat)
}

/// The same of an indivisible bid that doesn't fit the demand.
fn made_of_oversized<R: Wait>(rt: &R, alloc: Global, welfare: u64) -> Result<Reported, Fail> {
    let market = market_of(alloc, &OVERSIZED)?;
    let reported = made_after(rt, alloc, &market, welfare);
    drop(market);
    reported
}

// 30 MW of demand at 99,999.00, less 30 MW at 30.00, bounds the root by 299,907,000 quarter-cents.
#[test]
fn a_worker_closes_its_node_at_what_another_offered(rt: HostRuntime) -> Result<(), Fail> {
    let at_the_bound = made_of_oversized(&rt, rt.alloc(), 299_907_000)?;
    same(&rt, at_the_bound, (1, Some(PartItem::Closed)));
    let below_it = made_of_oversized(&rt, rt.alloc(), 299_906_999)?;
    same(&rt, below_it, (3, None));
    Ok(())
}
