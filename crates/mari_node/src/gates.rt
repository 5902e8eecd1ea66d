//! Whether what the orders of gates run is feasible, where all is within the orders' greatest and in balance.
//!
//! It is a test of its own beside `is_feasible` of `mari_welfare`: bounds and balance of an optimum are settled by the
//! solver, and an order without a gate has the least 0. So only the orders of gates are looked at.

ghost use Rattle.std.specs.Prelude.{◌≡◌, ◌↔◌, ◌<◌, ◌≤◌, ℕ, IfSome, IsTrue, MatchOption, length};
ghost use Rattle.std.specs.List.{All, Any};
ghost use Rattle.mari_market.specs.declared.activation.Activation.{Activation};
ghost use Rattle.mari_market.specs.Gates.{KeepsGateRules};
ghost use Rattle.mari_market.specs.Market.{IsValid};
ghost use Rattle.mari_market.specs.Optimal.{IsFeasible};
ghost use Rattle.mari_market.specs.Prefix.{opens_in};
ghost use Rattle.mari_network.specs.Solving.{FitsOrders, IsWritten};
ghost use Rattle.mari_node.specs.Running.{quantity_at, runs_among, IsBounded, IsNotPartial, IsPartial, RunsWhereOpen};
ghost use Rattle.mari_paths.specs.Starts.{order_at};
ghost use Rattle.mari_paths.specs.Warm.{AreGated};
ghost use Rattle.mari_welfare.specs.Gates.{IsOfFewGates};

use mari_gates::{child_of, empty_prefix, may_branch_up};
use mari_market::{Market, Order};
use mari_paths::Optimum;
use mari_units::MOST_MW;
use mari_welfare::OpenGates;

/// How many MW the order at this place runs.
pub(crate) fn quantity(optimum: &Optimum, place: usize) -> u32
    requires place { place < length optimum.now.amounts.items }
    requires small { quantity_at optimum.now place ≤ MOST_MW }
    ensures { result ≡ quantity_at optimum.now place }
{
    optimum.amounts[place].unsigned_abs() as u32
}

/// The gates of which some order runs; or nothing, where an order runs less than its least.
fn running(market: &Market, gated: &[usize], optimum: &Optimum) -> Option<OpenGates>
    requires valid { IsValid market.now }
    requires gated { AreGated market.now gated.now }
    requires fits { FitsOrders market.now optimum.now }
    ensures runs { IfSome result (λ runs. (g : ℕ) → opens_in runs g ≡ runs_among g market.now optimum.now gated.now) }
    ensures whole { MatchOption result (Any (λ k. IsPartial (order_at market.now k) (quantity_at optimum.now k)) gated.now)
        (λ _. All (λ k. IsNotPartial (order_at market.now k) (quantity_at optimum.now k)) gated.now) }
{
    let orders = market.orders.as_slice();
    let mut runs = OpenGates::none();
    for place in gated {
        let order = &orders[*place];
        let mw = quantity(optimum, *place);
        if 0 < mw && mw < order.least {
            return None;
        }
        runs.mark(order, mw);
    }
    Some(runs)
}

/// Whether an order runs, if it is of a gate that runs.
fn runs_with_gate(runs: &OpenGates, order: &Order, mw: u32) -> bool
    requires { IsOfFewGates order.now }
    ensures { IsTrue result ↔ RunsWhereOpen (opens_in runs.now) order.now mw }
{
    match order.gate {
        None => true,
        Some(gate) => mw > 0 || !runs.has(gate),
    }
}

/// Whether each order of the gates that run does.
fn run_together(market: &Market, gated: &[usize], optimum: &Optimum, runs: &OpenGates) -> bool
    requires valid { IsValid market.now }
    requires gated { AreGated market.now gated.now }
    requires fits { FitsOrders market.now optimum.now }
    ensures { IsTrue result ↔ All (λ k. RunsWhereOpen (opens_in runs.now) (order_at market.now k) (quantity_at optimum.now k)) gated.now }
{
    let orders = market.orders.as_slice();
    for place in gated {
        if !runs_with_gate(runs, &orders[*place], quantity(optimum, *place)) {
            return false;
        }
    }
    true
}

/// Whether the gates that run keep the rules of parents and groups.
fn keep_rules(market: &Market, runs: &OpenGates) -> bool
    requires valid { IsValid market.now }
    ensures { IsTrue result ↔ KeepsGateRules market.now.gates (opens_in runs.now) }
{
    let mut word = empty_prefix();
    for gate in 0..market.gates.as_slice().len() {
        let runs_here = runs.has(gate as u32);
        if runs_here && !may_branch_up(market, &word) {
            return false;
        }
        word = child_of(&word, runs_here);
    }
    true
}

/// Whether the activation that an optimum is written as is feasible, given that it is within the orders' greatest and
/// the borders' limits, and in balance. `gated` has the places of the orders of gates.
///
/// That is so where each order of a gate runs at least its least or nothing, the orders of a gate run together, and
/// the gates that run keep the rules of parents and groups. The first order that runs less than its least decides.
pub(crate) fn keeps_gates(market: &Market, gated: &[usize], optimum: &Optimum) -> bool
    requires valid { IsValid market.now }
    requires gated { AreGated market.now gated.now }
    requires fits { FitsOrders market.now optimum.now }
    ensures { (a : Activation) → IsWritten market.now optimum.now a → IsBounded market.now a → IsTrue result ↔ IsFeasible market.now a }
{
    match running(market, gated, optimum) {
        None => false,
        Some(runs) => run_together(market, gated, optimum, &runs) && keep_rules(market, &runs),
    }
}
