//! Which node the pool gives next, tickets for nodes that are given back, and tickets that are stale.

ghost use Rattle.std.specs.Prelude.{◌≡◌, ◌≤◌, pos};
ghost use Rattle.mari_incumbent.specs.Incumbent.{IsFresh};
ghost use Rattle.mari_market.specs.Clearing.{IsBudget, IsWorkerCount};
ghost use Rattle.mari_market.specs.Market.{IsValid};
ghost use Rattle.mari_market.specs.Relaxation.{IsClosedWelfare};

use crate::same::same_in;
use crate::searches::one_of;
use crate::small::{DOWN, MarketRow, OVERSIZED, UP, market_of};
use mari_incumbent::{Incumbent, Seat};
use mari_market::{Market, PartItem};
use mari_node::examine;
use mari_pool::{Pool, PoolFault, SearchName, Settled, Ticket, Took, child_key};
use mari_workers::first_of;
use std::alloc::Global;
use std::marker::Brand;
use std::test::Fail;

/// A node that was settled: its number, the bound that is found there, and what became of it.
type Step = (u32, u64, Settled);

/// What is done with a pool.
#[derive(Clone, Copy)]
enum Play {
    /// Three nodes are settled.
    Settle,
    /// A worker takes the one node, and a second one is idle; then the node is reclaimed, and its ticket is settled.
    SettleReclaimed,
    /// The same, and the ticket is given back.
    GiveReclaimed,
    /// A worker gives its node back, takes it again and gives it back again.
    GiveTwice,
}

/// What is reported of it.
#[derive(Clone, Copy, Debug, PartialEq, Eq)]
enum Reported {
    /// The steps, and the next node.
    Settle(Step, Step, Step, Option<u32>),
    /// The step of the reclaimed node's ticket.
    SettleReclaimed(Step),
    /// Whether the reclaimed node's ticket was given back.
    GiveReclaimed(bool),
    /// What is reported of a node that is given back twice.
    GiveTwice(Given),
}

/// Which tickets were given back, how many nodes are in hands then, why there is no tree, how many nodes there are, and
/// the item of the one in the part of the search tree.
#[derive(Clone, Copy, Debug, PartialEq, Eq)]
struct Given {
    given: [bool; 2],
    idle: Option<u32>,
    fault: Option<PoolFault>,
    part: (usize, Option<PartItem>),
}

/// A market, its closed welfare, a budget and a number of workers; what is done with its pool, and what is reported of
/// that.
struct Case {
    name: &'static str,
    market: MarketRow,
    first: u64,
    budget: u32,
    workers: u32,
    play: Play,
    reported: Reported,
}

const CASES: &[Case] = &[
    Case {
        name: "both children of the root are settled, and then a child of the greater bound is next",
        market: MarketRow {
            limits: &[],
            orders: &[
                (0, UP, 10, 10, 3000, Some(0)),
                (0, UP, 10, 10, 4000, Some(1)),
                (0, UP, 0, 100, 5000, None),
                (0, DOWN, 0, 30, 9_999_900, None),
            ],
            gates: &[(None, None), (None, None)],
        },
        first: 299_847_000,
        budget: 7,
        workers: 1,
        play: Play::Settle,
        reported: Reported::Settle(
            (0, 299_877_000, Settled::Branched),
            (1, 299_857_000, Settled::Branched),
            (2, 299_877_000, Settled::Branched),
            Some(5),
        ),
    },
    Case {
        name: "a reclaimed ticket is stale where it is settled",
        market: OVERSIZED,
        first: 299_847_000,
        budget: 3,
        workers: 2,
        play: Play::SettleReclaimed,
        reported: Reported::SettleReclaimed((0, 299_907_000, Settled::Stale)),
    },
    Case {
        name: "a reclaimed ticket is stale where it is given back",
        market: OVERSIZED,
        first: 299_847_000,
        budget: 3,
        workers: 2,
        play: Play::GiveReclaimed,
        reported: Reported::GiveReclaimed(false),
    },
    Case {
        name: "a worker gives one ticket back, and the next one stays in its hands",
        market: OVERSIZED,
        first: 299_847_000,
        budget: 3,
        workers: 2,
        play: Play::GiveTwice,
        reported: Reported::GiveTwice(Given {
            given: [true, false],
            idle: Some(1),
            fault: Some(PoolFault::NotClosed(0)),
            part: (1, Some(PartItem::Pending)),
        }),
    },
];

/// Settles a ticket's node with what is found there, of which nothing is offered.
fn settled_by<'m, N: SearchName>(
    alloc: Global,
    market: &Market,
    pool: &mut Pool<'m, N>,
    ticket: Ticket<N>,
    incumbent: &Incumbent,
    seat: &mut Seat,
) -> Result<Step, Fail>
    requires market { (market.now ≡ N.market) × IsValid market.now }
    requires incumbent { (incumbent.now ≡ N.incumbent) × (seat.old.incumbent ≡ N.incumbent) }
    ensures seat { seat.new.incumbent ≡ seat.old.incumbent }
{
    if ticket.prefix.length as usize >= market.gates.as_slice().len() {
        return Err("the node leaves a gate to decide".into());
    }
    let finding = examine(alloc, market, &ticket.prefix)?;
    let node = ticket.node;
    let bound = child_key(&finding);
    let settled = pool.settle(incumbent, ticket, finding, seat);
    Ok((node, bound, settled))
}

/// Takes the next node and settles it.
fn settled<'m, N: SearchName>(
    alloc: Global,
    market: &Market,
    pool: &mut Pool<'m, N>,
    incumbent: &Incumbent,
    seat: &mut Seat,
) -> Result<Step, Fail>
    requires market { (market.now ≡ N.market) × IsValid market.now }
    requires incumbent { (incumbent.now ≡ N.incumbent) × (seat.old.incumbent ≡ N.incumbent) }
    ensures seat { seat.new.incumbent ≡ seat.old.incumbent }
{
    match pool.take(0) {
        Took::Took(ticket) => settled_by(alloc, market, pool, ticket, incumbent, seat),
        _ => Err("a node waits".into()),
    }
}

/// The number of the next node, if one waits.
fn next<'m, N: SearchName>(pool: &mut Pool<'m, N>) -> Option<u32> {
    match pool.take(0) {
        Took::Took(ticket) => Some(ticket.node),
        _ => None,
    }
}

/// What is reported of the first three nodes and the next one.
fn three_settled<'m, N: SearchName>(
    alloc: Global,
    market: &Market,
    pool: &mut Pool<'m, N>,
    incumbent: &Incumbent,
    seat: &mut Seat,
) -> Result<Reported, Fail>
    requires market { (market.now ≡ N.market) × IsValid market.now }
    requires incumbent { (incumbent.now ≡ N.incumbent) × (seat.old.incumbent ≡ N.incumbent) }
{
    let root = settled(alloc, market, pool, incumbent, seat)?;
    let closed = settled(alloc, market, pool, incumbent, seat)?;
    let opened = settled(alloc, market, pool, incumbent, seat)?;
    Ok(Reported::Settle(root, closed, opened, next(pool)))
}

/// The first worker's ticket for a node that is reclaimed, while the second worker is idle.
fn reclaimed<'m, N: SearchName>(pool: &mut Pool<'m, N>) -> Result<Ticket<N>, Fail>
    requires { 1 ≤ N.workers }
{
    let Took::Took(ticket) = pool.take(0) else {
        return Err("the first worker gets a node".into());
    };
    if !matches!(pool.take(1), Took::Idle(1)) {
        return Err("the second worker is idle".into());
    }
    pool.reclaim()?;
    Ok(ticket)
}

/// Whether a ticket for the next node is given back, where one waits.
fn given_back<'m, N: SearchName>(pool: &mut Pool<'m, N>) -> Result<bool, Fail> {
    match pool.take(0) {
        Took::Took(ticket) => Ok(pool.give_back(ticket)),
        _ => Err("the worker gets the node".into()),
    }
}

/// How many nodes are in hands, where the second worker is idle.
fn in_hands<'m, N: SearchName>(pool: &mut Pool<'m, N>) -> Option<u32>
    requires { 1 ≤ N.workers }
{
    match pool.take(1) {
        Took::Idle(count) => Some(count),
        _ => None,
    }
}

/// Why there is no tree, if there is none.
fn fault_of<'m, N: SearchName>(alloc: Global, pool: &Pool<'m, N>) -> Option<PoolFault> {
    match pool.finish(alloc) {
        Ok(_tree) => None,
        Err(fault) => Some(fault),
    }
}

/// What is reported of two tickets that are given back.
fn given_twice<'m, N: SearchName>(alloc: Global, pool: &mut Pool<'m, N>) -> Result<Reported, Fail>
    requires { 1 ≤ N.workers }
{
    let given = [given_back(pool)?, given_back(pool)?];
    let idle = in_hands(pool);
    let fault = fault_of(alloc, pool);
    let part = one_of(&pool.part(alloc)?);
    Ok(Reported::GiveTwice(Given {
        given,
        idle,
        fault,
        part,
    }))
}

/// What is reported of a pool.
fn played<'m, N: SearchName>(
    alloc: Global,
    market: &Market,
    pool: &mut Pool<'m, N>,
    incumbent: &Incumbent,
    seat: &mut Seat,
    play: Play,
) -> Result<Reported, Fail>
    requires market { (market.now ≡ N.market) × IsValid market.now }
    requires workers { 1 ≤ N.workers }
    requires incumbent { (incumbent.now ≡ N.incumbent) × (seat.old.incumbent ≡ N.incumbent) }
{
    match play {
        Play::Settle => three_settled(alloc, market, pool, incumbent, seat),
        Play::SettleReclaimed => {
            let ticket = reclaimed(pool)?;
            let step = settled_by(alloc, market, pool, ticket, incumbent, seat)?;
            Ok(Reported::SettleReclaimed(step))
        }
        Play::GiveReclaimed => {
            let ticket = reclaimed(pool)?;
            Ok(Reported::GiveReclaimed(pool.give_back(ticket)))
        }
        Play::GiveTwice => given_twice(alloc, pool),
    }
}

/// What is reported of a pool of this name, from a seat of its own and one for all workers.
fn reported_of<'m, N: SearchName>(
    alloc: Global,
    market: &'m Market,
    incumbent: &Incumbent,
    seat: Seat,
    mut mine: Seat,
    case: &Case,
) -> Result<Reported, Fail>
    requires name { (market.now ≡ N.market) × (case.now.budget ≡ N.budget) × (case.now.workers ≡ N.workers) × (incumbent.now ≡ N.incumbent) }
    requires market { IsValid market.now }
    requires budget { IsBudget case.now.budget }
    requires workers { IsWorkerCount case.now.workers }
    requires closed { IsClosedWelfare market.now (pos N.incumbent.first) }
    requires seat { IsFresh N.incumbent seat }
    requires mine { mine.incumbent ≡ N.incumbent }
{
    let mut pool = Pool::<N>::start(alloc, market, case.budget, case.workers, seat)?;
    let reported = played(alloc, market, &mut pool, incumbent, &mut mine, case.play);
    drop(pool);
    reported
}

/// The closed welfare of a case's market, and what is reported of its pool.
fn reported_at(alloc: Global, market: &Market, case: &Case) -> Result<(u64, Reported), Fail> {
    let in_range = (1..=50_000).contains(&case.budget) && (1..=16).contains(&case.workers);
    if !(market.valid() && in_range) {
        return Err("the market is valid, and the numbers in range".into());
    }
    let first = first_of(alloc, market)?;
    let (incumbent, mut mine) = Incumbent::start(alloc, first.welfare, 2)?;
    let seat = incumbent.split(&mut mine);
    let reported = reported_of::<Brand>(alloc, market, &incumbent, seat, mine, case)?;
    Ok((first.welfare, reported))
}

/// What is reported of a case.
fn reported_in(alloc: Global, case: &Case) -> Result<(u64, Reported), Fail> {
    let market = market_of(alloc, &case.market)?;
    let reported = reported_at(alloc, &market, case);
    drop(market);
    reported
}

#[test]
fn tickets_of_a_pool(rt: HostRuntime) -> Result<(), Fail> {
    for case in CASES {
        same_in(
            &rt,
            case.name,
            reported_in(rt.alloc(), case)?,
            (case.first, case.reported),
        );
    }
    Ok(())
}
