//! One worker's loop.

ghost use Rattle.std.specs.Prelude.{◌≡◌, ◌<◌, ◌≤◌, IfOk, IfSome, OnOk};
ghost use Rattle.mari_core.specs.Growth.{MaySettle};
ghost use Rattle.mari_core.specs.Nodes.{new_node};
ghost use Rattle.mari_incumbent.specs.Incumbent.{IsFresh};
ghost use Rattle.mari_market.specs.Finding.{IsAttained};
ghost use Rattle.mari_market.specs.Market.{IsValid};
ghost use Rattle.mari_market.specs.Prefix.{word_of, IsFeasiblePrefix};
ghost use Rattle.mari_workers.specs.Alone.{best_in};
ghost use Rattle.mari_workers.specs.Root.{IsRootOf, IsWorkspaceAt};
ghost use Rattle.mari_workers.specs.Worked.{HoldsBest, IsSeen};

use crate::alone::{best_of, copy_of};
use crate::root::Root;
use crate::rounding::best_rounded;
use crate::turnstile::Turnstile;
use mari_incumbent::{Incumbent, Seat};
use mari_market::{Attained, Finding, Market, Prefix};
use mari_paths::Workspace;
use mari_pool::{Pool, SearchName, Settled, Took};
use mari_units::Memory;
use std::alloc::Global;
use std::sync::{Condvar, Mutex, Wait};

/// What a worker hands back.
#[derive(Drop)]
pub struct Worked {
    /// Its seat.
    pub seat: Seat,
    /// The best activation that it offered, if it offered any above the incumbent's first value.
    pub best: Option<Attained>,
}

/// Offers an activation and keeps a copy of it, where it is better than all that this seat has offered.
fn offer(
    market: &Market,
    incumbent: &Incumbent,
    worked: &mut Worked,
    attained: &Attained,
) -> Result<(), Memory>
    requires holds { HoldsBest market.now incumbent.now worked.old }
    requires attained { IsAttained market.now attained.now }
    ensures holds { HoldsBest market.now incumbent.now worked.new }
    ensures parts { worked.new.seat.parts ≡ worked.old.seat.parts }
    ensures seen { OnOk result (attained.now.welfare ≤ worked.new.seat.seen) }
{
    // That a seat has seen what it offered.
    let _seen = worked.seat.seen();
    if worked.seat.offered() < attained.welfare {
        let best = copy_of(attained)?;
        incumbent.offer(&mut worked.seat, best.welfare);
        worked.best = Some(best);
    }
    Ok(())
}

/// Offers the activation of a finding, if it has one.
fn offer_found(
    market: &Market,
    incumbent: &Incumbent,
    worked: &mut Worked,
    finding: &Finding,
) -> Result<(), Memory>
    requires holds { HoldsBest market.now incumbent.now worked.old }
    requires attained { IfSome (best_in finding.now) (IsAttained market.now) }
    ensures holds { HoldsBest market.now incumbent.now worked.new }
    ensures parts { worked.new.seat.parts ≡ worked.old.seat.parts }
    ensures seen { OnOk result (IsSeen worked.new.seat.seen finding.now) }
{
    match best_of(finding) {
        Some(best) => offer(market, incumbent, worked, best),
        None => Ok(()),
    }
}

/// Offers what the root's optimum comes to by rounding, if that is anything.
fn offer_rounded(
    alloc: Global,
    market: &Market,
    incumbent: &Incumbent,
    worked: &mut Worked,
    root: &Root,
) -> Result<(), Memory>
    requires market { IsValid market.now }
    requires root { IsRootOf market.now root.now }
    requires holds { HoldsBest market.now incumbent.now worked.old }
    ensures holds { HoldsBest market.now incumbent.now worked.new }
    ensures parts { worked.new.seat.parts ≡ worked.old.seat.parts }
{
    match best_rounded(alloc, market, root)? {
        Some(best) => offer(market, incumbent, worked, &best),
        None => Ok(()),
    }
}

/// Finds out about a node from the root's optimum, offers what was found, and looks at the incumbent. The node may be
/// settled with that then, at the greatest welfare that its worker has seen.
pub(crate) fn visit<G: Turnstile>(
    alloc: Global,
    market: &Market,
    worker: u32,
    prefix: &Prefix,
    incumbent: &Incumbent,
    worked: &mut Worked,
    turnstile: &G,
    root: &Root,
    workspace: &mut Workspace,
) -> Result<Finding, Memory>
    requires market { IsValid market.now }
    requires prefix { IsFeasiblePrefix market.now prefix.now }
    requires root { IsRootOf market.now root.now }
    requires workspace { IsWorkspaceAt root.now workspace.old }
    requires holds { HoldsBest market.now incumbent.now worked.old }
    ensures holds { HoldsBest market.now incumbent.now worked.new }
    ensures parts { worked.new.seat.parts ≡ worked.old.seat.parts }
    ensures may { IfOk result (λ finding. MaySettle market.now worked.new.seat.seen finding (new_node (word_of prefix.now))) }
    ensures workspace { IsWorkspaceAt root.now workspace.new }
{
    let finding = turnstile.through(alloc, worker, market, prefix, root, workspace)?;
    offer_found(market, incumbent, worked, &finding)?;
    incumbent.look(&mut worked.seat);
    Ok(finding)
}

/// One worker's loop: it takes nodes, finds out about them and settles them, until none is left or one could not
/// branch within the budget. When out of memory it ends, and gives its node back unless it has settled it.
///
/// Pool, seat and incumbent are of one search of this market. The lock is held for one take, one settle or one
/// give-back. The bell rings where somebody who waits may get on: after a branch, and when a worker ends. The worker
/// that branches the root offers what its optimum comes to by rounding, while others go on. The clauses speak of what a
/// worker hands back, its seat and the best activation that it offered, and not of which nodes it takes or what it
/// offers.
pub fn work<'m, N: SearchName, G: Turnstile, R: Wait>(
    rt: &R,
    alloc: Global,
    market: &Market,
    worker: u32,
    pool: &Mutex<Pool<'m, N>>,
    bell: &Condvar,
    incumbent: &Incumbent,
    seat: Seat,
    turnstile: &G,
) -> Worked
    requires market { (market.now ≡ N.market) × IsValid market.now }
    requires worker { worker < N.workers }
    requires incumbent { incumbent.now ≡ N.incumbent }
    requires seat { IsFresh N.incumbent seat }
    ensures holds { HoldsBest N.market N.incumbent result }
    ensures parts { result.seat.parts ≡ 1 }
{
    match Root::find(alloc, market) {
        Ok(root) => work_from(
            rt, alloc, market, worker, pool, bell, incumbent, seat, turnstile, &root,
        ),
        Err(Memory) => {
            bell.notify_all();
            Worked { seat, best: None }
        }
    }
}

/// The same where the root's optimum is known, from which each prefix is examined in this worker's workspace.
pub(crate) fn work_from<'m, N: SearchName, G: Turnstile, R: Wait>(
    rt: &R,
    alloc: Global,
    market: &Market,
    worker: u32,
    pool: &Mutex<Pool<'m, N>>,
    bell: &Condvar,
    incumbent: &Incumbent,
    seat: Seat,
    turnstile: &G,
    root: &Root,
) -> Worked
    requires market { (market.now ≡ N.market) × IsValid market.now }
    requires root { IsRootOf market.now root.now }
    requires worker { worker < N.workers }
    requires incumbent { incumbent.now ≡ N.incumbent }
    requires seat { IsFresh N.incumbent seat }
    ensures holds { HoldsBest N.market N.incumbent result }
    ensures parts { result.seat.parts ≡ 1 }
{
    let mut worked = Worked { seat, best: None };
    let Ok(mut workspace) = root.workspace(alloc) else {
        bell.notify_all();
        return worked;
    };
    for _ in rt.forever() {
        let Took::Took(ticket) = next(rt, worker, pool, bell) else {
            break;
        };
        let is_root = ticket.prefix.length == 0;
        let found = visit(
            alloc,
            market,
            worker,
            &ticket.prefix,
            incumbent,
            &mut worked,
            turnstile,
            root,
            &mut workspace,
        );
        let Ok(finding) = found else {
            pool.lock(rt).give_back(ticket);
            break;
        };
        let settled = pool
            .lock(rt)
            .settle(incumbent, ticket, finding, &mut worked.seat);
        if settled == Settled::Branched {
            bell.notify_all();
            if is_root && offer_rounded(alloc, market, incumbent, &mut worked, root).is_err() {
                break;
            }
        }
    }
    bell.notify_all();
    worked
}

/// Takes a node, or waits while others have all that is left.
fn next<'m, N: SearchName, R: Wait>(
    rt: &R,
    worker: u32,
    pool: &Mutex<Pool<'m, N>>,
    bell: &Condvar,
) -> Took<N>
    requires { worker ≤ N.workers }
{
    let mut held = pool.lock(rt);
    for _ in rt.forever() {
        match held.take(worker) {
            Took::Idle(_) => held = bell.wait(rt, held),
            took => return took,
        }
    }
    unreachable!()
}
