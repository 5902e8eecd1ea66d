//! Relaxed optima along random walks from the root to a gate word: from a warm start, and by the plain solver.

ghost use Rattle.std.specs.Prelude.{◌≡◌, ◌<◌, ◌+◌, length};
ghost use Rattle.mari_market.specs.Market.{IsValid};
ghost use Rattle.mari_market.specs.Prefix.{IsFeasiblePrefix};
ghost use Rattle.mari_paths.specs.Warm.{IsWarmStart, IsWorkspaceOf};

use crate::random::{Dice, Sum};
use crate::same::same;
use mari_flow::solve;
use mari_gates::{child_of, empty_prefix, may_branch_up};
use mari_market::{Activation, Market, Prefix};
use mari_paths::{SolveFault, Solved, WarmStart, Workspace, solve_from};
use std::alloc::Global;
use std::process::Abort;
use std::test::Fail;

/// The sum of all that an optimum has.
fn sum_of(solved: &Solved) -> u64 {
    let mut sum = Sum { state: 0 };
    sum.add_activation(&solved.activation);
    sum.add_prices(solved.potentials.cents.as_slice());
    sum.state
}

/// What is reported of what a solver finds: the welfare of an optimum, and the sum of all that it has; nothing of a cut.
fn reported(found: Result<Solved, SolveFault>) -> Result<Option<(u64, u64)>, Fail> {
    match found {
        Ok(solved) => Ok(Some((solved.welfare, sum_of(&solved)))),
        Err(SolveFault::Cut(_)) => Ok(None),
        Err(SolveFault::Memory) => Err("memory".into()),
    }
}

/// The welfare that is reported.
fn welfare(reported: Option<(u64, u64)>) -> Option<u64> {
    match reported {
        Some((welfare, _sum)) => Some(welfare),
        None => None,
    }
}

/// What a warm start finds at a prefix, in a workspace that was used for the prefixes before it.
fn solve_in(
    alloc: Global,
    market: &Market,
    prefix: &Prefix,
    warm: &WarmStart,
    workspace: &mut Workspace,
) -> Result<Solved, SolveFault>
    requires market { IsValid market.now }
    requires prefix { IsFeasiblePrefix market.now prefix.now }
    requires warm { IsWarmStart market.now warm.now }
    requires workspace { IsWorkspaceOf warm.now workspace.old }
    ensures workspace { IsWorkspaceOf warm.now workspace.new }
{
    let optimum = warm.optimum_in(alloc, market, prefix, workspace)?;
    Ok(optimum.solved(alloc, market)?)
}

/// Compares what a warm start finds at a prefix with what the plain solver does: the welfare; and, where it is made from
/// an optimum, with what the fast solver does from that: all.
fn compare(
    rt: &impl Abort,
    alloc: Global,
    market: &Market,
    prefix: &Prefix,
    warm: &WarmStart,
    workspace: &mut Workspace,
    optimum: Option<&Activation>,
) -> Result<(), Fail>
    requires market { IsValid market.now }
    requires prefix { IsFeasiblePrefix market.now prefix.now }
    requires warm { IsWarmStart market.now warm.now }
    requires workspace { IsWorkspaceOf warm.now workspace.old }
    ensures workspace { IsWorkspaceOf warm.now workspace.new }
{
    let found = reported(solve_in(alloc, market, prefix, warm, workspace))?;
    let plain = reported(solve(alloc, market, prefix))?;
    same(rt, welfare(found), welfare(plain));
    if optimum.is_some() {
        same(
            rt,
            found,
            reported(solve_from(alloc, market, prefix, optimum))?,
        );
    }
    Ok(())
}

/// The next prefix of a walk.
fn next(dice: &mut Dice, market: &Market, prefix: &Prefix) -> Prefix
    requires market { IsValid market.now }
    requires prefix { IsFeasiblePrefix market.now prefix.now }
    requires undecided { prefix.now.length < length market.now.gates }
    ensures feasible { IsFeasiblePrefix market.now result }
    ensures length { result.length ≡ prefix.now.length + 1 }
{
    let open = may_branch_up(market, prefix) && dice.below(2) == 0;
    child_of(prefix, open)
}

/// Walks from the root to a gate word, and compares what is found at each prefix.
fn walk(
    rt: &impl Abort,
    alloc: Global,
    market: &Market,
    dice: &mut Dice,
    optimum: Option<&Activation>,
) -> Result<(), Fail>
    requires { IsValid market.now }
{
    let warm = WarmStart::of(alloc, market, optimum)?;
    let mut workspace = warm.workspace(alloc)?;
    let mut prefix = empty_prefix();
    while (prefix.length as usize) < market.gates.as_slice().len() {
        compare(rt, alloc, market, &prefix, &warm, &mut workspace, optimum)?;
        prefix = next(dice, market, &prefix);
    }
    compare(rt, alloc, market, &prefix, &warm, &mut workspace, optimum)
}

/// Walks through a market with a warm start from the root's optimum, and with one without a start.
fn walks_in(rt: &impl Abort, alloc: Global, market: &Market, dice: &mut Dice) -> Result<(), Fail> {
    if !market.valid() {
        return Err("the market is valid".into());
    }
    let Ok(root) = solve_from(alloc, market, &empty_prefix(), None) else {
        return Err("the root has an optimum".into());
    };
    walk(rt, alloc, market, dice, Some(&root.activation))?;
    walk(rt, alloc, market, dice, None)
}

/// The same through the next market.
fn walks_in_next(rt: &impl Abort, alloc: Global, dice: &mut Dice) -> Result<(), Fail> {
    let market = dice.market(alloc)?;
    let walked = walks_in(rt, alloc, &market, dice);
    drop(market);
    walked
}

#[test]
fn a_warm_start_finds_what_the_plain_solver_finds(rt: HostRuntime) -> Result<(), Fail> {
    let mut dice = Dice {
        state: 0x2025_0312_0000_0096,
    };
    for _ in 0..1000 {
        walks_in_next(&rt, rt.alloc(), &mut dice)?;
    }
    Ok(())
}
