//! The search of several workers.

ghost use Rattle.std.specs.Prelude.{◌≡◌, ℕ, ◌+◌, ◌-◌, ◌<◌, ◌≤◌, pos, true, false, IfOk, OnOk, slice_index_or, vec_len};
ghost use Rattle.mari_incumbent.specs.Incumbent.{seat_view, IsFresh};
ghost use Rattle.mari_market.specs.Activation.{gate_word_of};
ghost use Rattle.mari_market.specs.Clearing.{Clears, IsBudget, IsWorkerCount};
ghost use Rattle.mari_market.specs.Finding.{IsAttained};
ghost use Rattle.mari_market.specs.Market.{IsValid};
ghost use Rattle.mari_market.specs.Relaxation.{all_closed, IsClosedWelfare};
ghost use Rattle.mari_pool.specs.Taking.{IsIdle};
ghost use Rattle.mari_workers.specs.Refine.{MayRefine};
ghost use Rattle.mari_workers.specs.Root.{IsRootOf};
ghost use Rattle.mari_workers.specs.Together.{IsSeated};
ghost use Rattle.mari_workers.specs.Worked.{HoldsBest, IsWorked};

use crate::alone::search_alone;
use crate::bounds::BranchBounds;
use crate::publishing::published_from;
use crate::root::Root;
use crate::seats::{Seated, gather, seated_of};
use crate::turnstile::{FreeTurnstile, Turnstile};
use crate::worker::{Worked, visit, work_from};
use crossbeam_utils::CachePadded;
use mari_incumbent::{Incumbent, Seat};
use mari_market::{Attained, Cleared, Clearing, Market, Spent};
use mari_pool::{Pool, PoolFault, SearchName, Took};
use mari_units::{Items, Memory};
use std::alloc::{AllocError, Global};
use std::marker::Brand;
use std::sync::{Condvar, Mutex, Wait};
use std::thread;
use std::thread::Threads;

/// Runs each worker in a thread of its own, or on this thread where none can be made for it. All have ended then.
fn run_in_threads<'m, N: SearchName + Send + Sync, G: Turnstile, R: Threads + Wait + Sync>(
    rt: &R,
    alloc: Global,
    market: &Market,
    pool: &Mutex<Pool<'m, N>>,
    bell: &Condvar,
    incumbent: &Incumbent,
    seated: Vec<Seated>,
    turnstile: &G,
    root: &Root,
) -> Result<Vec<Worked>, AllocError>
    requires market { (market.now ≡ N.market) × IsValid market.now }
    requires root { IsRootOf market.now root.now }
    requires incumbent { incumbent.now ≡ N.incumbent }
    requires seated { (i : ℕ) (d : _) → i < vec_len seated → IsSeated N.incumbent N.workers (slice_index_or seated.items i d) }
    ensures len { IfOk result (λ v. vec_len v ≡ vec_len seated) }
    ensures each { IfOk result (λ v. (i : ℕ) (d : _) → i < vec_len v → IsWorked N.market N.incumbent (slice_index_or v.items i d)) }
{
    let each = |one: Seated| -> Worked
        requires { (market.now ≡ N.market) × IsValid market.now × (incumbent.now ≡ N.incumbent) × IsSeated N.incumbent N.workers one
            × IsRootOf market.now root.now }
        ensures { IsWorked N.market N.incumbent result }
    {
        let Seated { worker, seat } = one;
        work_from(
            rt, alloc, market, worker, pool, bell, incumbent, seat, turnstile, root,
        )
    };
    thread::map_vec(rt, seated, &each)
}

/// Settles what is left of the tree. False where a node could not branch within the budget.
fn settle_rest<'m, N: SearchName, R: Wait>(
    rt: &R,
    alloc: Global,
    market: &Market,
    worker: u32,
    pool: &mut Pool<'m, N>,
    incumbent: &Incumbent,
    mine: &mut Worked,
    root: &Root,
) -> Result<bool, Memory>
    // The search is the one of the name.
    requires market { (market.now ≡ N.market) × IsValid market.now }
    requires root { IsRootOf market.now root.now }
    requires worker { worker ≤ N.workers }
    requires incumbent { incumbent.now ≡ N.incumbent }

    // What this worker has, before and after.
    requires mine { HoldsBest N.market N.incumbent mine.old }
    ensures mine { HoldsBest N.market N.incumbent mine.new }
    ensures parts { mine.new.seat.parts ≡ mine.old.seat.parts }

    // What the answer says of the pool.
    ensures closed { IfOk result (λ closed. closed ≡ true → IsIdle pool.new pool.new 0) }
    ensures spent { IfOk result (λ closed. closed ≡ false → pool.new.tree.full ≡ true) }
{
    for _ in rt.forever() {
        match pool.take(worker) {
            Took::Took(ticket) => {
                let mut workspace = root.workspace(alloc)?;
                let finding = visit(
                    alloc,
                    market,
                    worker,
                    &ticket.prefix,
                    incumbent,
                    mine,
                    &FreeTurnstile,
                    root,
                    &mut workspace,
                )?;
                pool.settle(incumbent, ticket, finding, &mut mine.seat);
            }
            Took::Idle(_) => pool.reclaim()?,
            Took::Finished => return Ok(true),
            Took::Spent(_) => return Ok(false),
        }
    }
    unreachable!()
}

/// The optimal clearing of a tree without open leaves: the incumbent closes at the best that was offered.
fn optimum_of_pool<'m, N: SearchName>(
    alloc: Global,
    pool: Pool<'m, N>,
    incumbent: Incumbent,
    mine: Worked,
    first: Attained,
) -> Result<Clearing, Memory>
    // The search is the one of the name, and all its seats but the pool's are in this one.
    requires market { IsValid N.market }
    requires incumbent { incumbent ≡ N.incumbent }
    requires mine { HoldsBest N.market N.incumbent mine }
    requires parts { mine.seat.parts + 1 ≡ N.incumbent.all }

    // The best activation with every gate closed.
    requires first { IsAttained N.market first × (first.welfare ≡ N.incumbent.first) }
    requires closed { IsClosedWelfare N.market (pos N.incumbent.first) }
    requires gates { gate_word_of N.market first.activation ≡ all_closed N.market }

    // No leaf is open.
    requires idle { IsIdle pool pool 0 }

    // So the best that was offered is an optimum.
    ensures { IfOk result (MayRefine N.market N.budget) }
{
    let tree = match pool.finish(alloc) {
        Ok(tree) => tree,
        Err(PoolFault::Memory) => {
            drop(pool);
            drop(incumbent);
            drop(mine);
            drop(first);
            return Err(Memory);
        }
        Err(PoolFault::NotClosed(_)) => unreachable!(),
    };
    let Worked { mut seat, best } = mine;
    incumbent.join(&mut seat, pool.into_seat());
    let welfare = incumbent.close(seat);
    let best = best.unwrap_or(first);
    Ok(Clearing {
        activation: best.activation,
        welfare,
        tree: Items::of(tree),
    })
}

/// Lets all workers run over a pool, and gathers what they found.
fn run_and_gather<'m, N: SearchName + Send + Sync, G: Turnstile, R: Threads + Wait + Sync>(
    rt: &R,
    alloc: Global,
    market: &Market,
    workers: u32,
    pool: &Mutex<Pool<'m, N>>,
    incumbent: &Incumbent,
    mine: &mut Worked,
    turnstile: &G,
    root: &Root,
) -> Result<(), Memory>
    // The search is the one of the name.
    requires market { (market.now ≡ N.market) × IsValid market.now }
    requires root { IsRootOf market.now root.now }
    requires workers { workers ≡ N.workers }
    requires incumbent { incumbent.now ≡ N.incumbent }

    // A part of this seat for each worker, and one more.
    requires mine { HoldsBest N.market N.incumbent mine.old }
    requires parts { workers < mine.old.seat.parts }

    // What this thread has then, with all parts back.
    ensures mine { OnOk result (HoldsBest N.market N.incumbent mine.new) }
    ensures parts { OnOk result (mine.new.seat.parts ≡ mine.old.seat.parts) }
{
    let seated = seated_of(alloc, incumbent, &mut mine.seat, workers)?;
    let bell = Condvar::new();
    let worked = run_in_threads::<N, G, R>(
        rt, alloc, market, pool, &bell, incumbent, seated, turnstile, root,
    )?;
    gather(market, incumbent, mine, worked);
    Ok(())
}

/// Starts a pool with its part of the seat, lets the workers run over it, and settles what they left. Beside the pool
/// it says whether no leaf of it is open; else a node could not branch within the budget.
fn run_pool<'m, N: SearchName + Send + Sync, G: Turnstile, R: Threads + Wait + Sync>(
    rt: &R,
    alloc: Global,
    market: &'m Market,
    workers: u32,
    budget: u32,
    pooled: Seat,
    incumbent: &Incumbent,
    mine: &mut Worked,
    turnstile: &G,
    root: &Root,
) -> Result<(Pool<'m, N>, bool), Memory>
    // The search is the one of the name, and can be one.
    requires market { (market.now ≡ N.market) × IsValid market.now }
    requires root { IsRootOf market.now root.now }
    requires numbers { (workers ≡ N.workers) × (budget ≡ N.budget) }
    requires workers { IsWorkerCount workers }
    requires budget { IsBudget budget }

    // The pool's part of the seat, and the others, in this one.
    requires incumbent { incumbent.now ≡ N.incumbent }
    requires pooled { IsFresh N.incumbent pooled }
    requires closed { IsClosedWelfare market.now (pos N.incumbent.first) }
    requires mine { HoldsBest N.market N.incumbent mine.old }
    requires parts { workers < mine.old.seat.parts }

    // What this thread has then, with all parts back but the pool's.
    ensures mine { OnOk result (HoldsBest N.market N.incumbent mine.new) }
    ensures parts { OnOk result (mine.new.seat.parts ≡ mine.old.seat.parts) }

    // What is known of the pool.
    ensures idle { IfOk result (λ ran. ran.1 ≡ true → IsIdle ran.0 ran.0 0) }
    ensures spent { IfOk result (λ ran. ran.1 ≡ false → ran.0.tree.full ≡ true) }
{
    let pool = Mutex::new(Pool::<N>::start(alloc, market, budget, workers, pooled)?);
    let ran = run_and_gather(
        rt, alloc, market, workers, &pool, incumbent, mine, turnstile, root,
    );
    let mut pool = pool.into_inner();
    let settled = match ran {
        Ok(()) => settle_rest(rt, alloc, market, workers, &mut pool, incumbent, mine, root),
        Err(Memory) => Err(Memory),
    };
    match settled {
        Ok(closed) => Ok((pool, closed)),
        Err(Memory) => {
            drop(pool);
            Err(Memory)
        }
    }
}

/// The part of the search tree of a pool in which a node could not branch within the budget.
fn part_of_pool<'m, N: SearchName>(alloc: Global, pool: Pool<'m, N>) -> Result<Cleared, Memory>
    requires { pool.tree.full ≡ true }
    ensures { IfOk result (Clears N.market N.budget) }
{
    let part = pool.part(alloc);
    drop(pool);
    let items = Items::of(part?);
    Ok(Cleared::Spent(Spent { items }))
}

/// Clears a market by a search of this name, from the best activation with every gate closed, by workers over a pool,
/// and refines what is found.
///
/// While the workers run the incumbent lies on a cache line of its own, since each of them steps on it.
fn search_over_pool<N: SearchName + Send + Sync, G: Turnstile, R: Threads + Wait + Sync>(
    rt: &R,
    alloc: Global,
    market: &Market,
    workers: u32,
    budget: u32,
    incumbent: Incumbent,
    seat: Seat,
    first: Attained,
    turnstile: &G,
    root: &Root,
) -> Result<Cleared, Memory>
    // The search is the one of the name, and can be one.
    requires market { (market.now ≡ N.market) × IsValid market.now }
    requires root { IsRootOf market.now root.now }
    requires numbers { (workers ≡ N.workers) × (budget ≡ N.budget) }
    requires workers { IsWorkerCount workers }
    requires budget { IsBudget budget }

    // A part of the seat for each worker, and two more.
    requires incumbent { (incumbent ≡ N.incumbent) × (N.incumbent.all ≡ workers + 2) }
    requires seat { seat ≡ seat_view N.incumbent N.incumbent.first N.incumbent.first (workers + 2) }

    // The best activation with every gate closed.
    requires first { IsAttained market.now first × (first.welfare ≡ N.incumbent.first) }
    requires closed { IsClosedWelfare market.now (pos first.welfare) }
    requires gates { gate_word_of market.now first.activation ≡ all_closed market.now }

    // The law of whatever clears.
    ensures { IfOk result (Clears market.now budget) }
{
    let incumbent = CachePadded::new(incumbent);
    let mut mine = Worked { seat, best: None };
    let pooled = incumbent.split(&mut mine.seat);
    let ran = run_pool::<N, G, R>(
        rt, alloc, market, workers, budget, pooled, &incumbent, &mut mine, turnstile, root,
    );
    let incumbent = incumbent.into_inner();
    let ended = match ran {
        Ok((pool, true)) => {
            let keys = pool.keys(alloc);
            let found = optimum_of_pool(alloc, pool, incumbent, mine, first)?;
            return match BranchBounds::of(alloc, found.tree.as_slice(), keys) {
                Ok(bounds) => published_from(alloc, market, found, budget, bounds, root),
                Err(Memory) => {
                    drop(found);
                    Err(Memory)
                }
            };
        }
        Ok((pool, false)) => part_of_pool(alloc, pool),
        Err(Memory) => Err(Memory),
    };
    drop(incumbent);
    drop(mine);
    drop(first);
    ended
}

/// Clears a market from its best activation with every gate closed: names the search, finds the root's optimum, and
/// starts the incumbent at the closed welfare, with a part for each worker, the pool and this thread.
fn search_under_name<G: Turnstile, R: Threads + Wait + Sync>(
    rt: &R,
    alloc: Global,
    market: &Market,
    workers: u32,
    budget: u32,
    turnstile: &G,
) -> Result<Cleared, Memory>
    requires market { IsValid market.now }
    requires workers { IsWorkerCount workers }
    requires budget { IsBudget budget }
    ensures { IfOk result (Clears market.now budget) }
{
    let (root, first) = Root::with_first(alloc, market)?;
    let (incumbent, seat) = Incumbent::start(alloc, first.welfare, u64::from(workers) + 2)?;
    search_over_pool::<Brand, G, R>(
        rt, alloc, market, workers, budget, incumbent, seat, first, turnstile, &root,
    )
}

/// Clears a market by branch and bound in 1 to `MOST_WORKERS` threads, within a budget of 1 to `MOST_NODES` nodes.
///
/// Workers take their findings from the turnstile, outside the lock. When all have ended this thread settles what is
/// left by itself. Where a node could not branch within the budget, this thread searches again, alone: workers make
/// other nodes than one does, and a run that one publishes is then published too. No clause says so. The answer comes if
/// every worker ends.
pub fn search<G: Turnstile, R: Threads + Wait + Sync>(
    rt: &R,
    alloc: Global,
    market: &Market,
    workers: u32,
    budget: u32,
    turnstile: &G,
) -> Cleared
    requires market { IsValid market.now }
    requires workers { IsWorkerCount workers }
    requires budget { IsBudget budget }
    ensures { Clears market.now budget result }
{
    match search_under_name(rt, alloc, market, workers, budget, turnstile) {
        Ok(Cleared::Spent(spent)) => {
            drop(spent);
            search_alone(alloc, market, budget)
        }
        Ok(cleared) => cleared,
        Err(Memory) => Cleared::Memory,
    }
}
