//! The rounding of a relaxed optimum: the gates that run at least their least in it are opened, as far as parents and
//! groups allow.
//!
//! No clause says which gates are opened: whatever they are, an activation that is found there is admissible.

ghost use Rattle.std.specs.Prelude.{◌≡◌, ◌<◌, ◌+◌, IfOk, IfSome, length};
ghost use Rattle.mari_market.specs.Finding.{IsAttained};
ghost use Rattle.mari_market.specs.Market.{IsValid};
ghost use Rattle.mari_market.specs.Prefix.{IsFeasiblePrefix};
ghost use Rattle.mari_workers.specs.Root.{IsRootOf};

use crate::root::Root;
use mari_gates::{child_of, empty_prefix, may_branch_up};
use mari_market::{Activation, Attained, Finding, Market, Prefix, Relaxed};
use mari_units::{MOST_GATES, Memory};
use std::alloc::Global;

/// Which gates have an order that runs at least its least.
fn running(market: &Market, activation: &Activation) -> [bool; MOST_GATES] {
    let mut runs = [false; MOST_GATES];
    for (order, mw) in market
        .orders
        .as_slice()
        .iter()
        .zip(activation.mw.as_slice())
    {
        if let Some(gate) = order.gate {
            if let Some(run) = runs.get_mut(gate as usize) {
                *run |= *mw >= order.least;
            }
        }
    }
    runs
}

/// The prefix that decides one gate more, as open where that is wanted and may be.
fn decide(market: &Market, prefix: &Prefix, wanted: bool) -> Prefix
    requires market { IsValid market.now }
    requires prefix { IsFeasiblePrefix market.now prefix.now }
    requires undecided { prefix.now.length < length market.now.gates }
    ensures feasible { IsFeasiblePrefix market.now result }
    ensures length { result.length ≡ prefix.now.length + 1 }
{
    let open = may_branch_up(market, prefix) && wanted;
    child_of(prefix, open)
}

/// The prefix that decides every gate, and opens those that run at least their least, as far as parents and groups
/// allow.
pub(crate) fn rounded(market: &Market, activation: &Activation) -> Prefix
    requires market { IsValid market.now }
    ensures feasible { IsFeasiblePrefix market.now result }
    ensures full { result.length ≡ length market.now.gates }
{
    let runs = running(market, activation);
    let mut prefix = empty_prefix();
    for gate in 0..market.gates.as_slice().len() {
        prefix = decide(market, &prefix, runs[gate]);
    }
    prefix
}

/// The best activation of the gates that the root's optimum comes to by rounding, if they have one. The clause says
/// that it is admissible and of its welfare, and not which gates those are.
pub(crate) fn best_rounded(
    alloc: Global,
    market: &Market,
    root: &Root,
) -> Result<Option<Attained>, Memory>
    requires market { IsValid market.now }
    requires root { IsRootOf market.now root.now }
    ensures { IfOk result (λ best. IfSome best (IsAttained market.now)) }
{
    let prefix = rounded(market, root.optimum());
    match root.examine(alloc, market, &prefix)? {
        Finding::Relaxed(Relaxed { best, .. }) => Ok(best),
        Finding::Empty(_) => Ok(None),
    }
}
