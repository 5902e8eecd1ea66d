//! Conflicts: chains of zones whose prices contradict each other, for the best activation of a gate word.

ghost use Rattle.std.specs.Prelude.{◌≡◌, ◌⊎◌, ◌↔◌, ℤ, ◌≤ℤ◌, ◌<ℤ◌, ◌≤◌, ◌<◌, length, IsTrue};
ghost use Rattle.std.specs.List.{All, AllZip};
ghost use Rattle.mari_market.specs.declared.along.Along.TheVariants.{Rising};
ghost use Rattle.mari_market.specs.Activation.{gate_word_of};
ghost use Rattle.mari_market.specs.Conflict.{IsConflict, IsContradiction, IsChain, Contradicts, last_of, IsContradictoryChain, IsChainOf};
ghost use Rattle.mari_market.specs.Along.{LeadsTo};
ghost use Rattle.mari_market.specs.Consistent.{SetsLowerAt, SetsUpperAt, standing_of};
ghost use Rattle.mari_market.specs.Market.{IsValid};
ghost use Rattle.mari_market.specs.Optimal.{IsFeasible};
ghost use Rattle.mari_market.specs.Prefix.{word_of, IsFeasiblePrefix};
ghost use Rattle.mari_proofs.specs.Conflicts.{opens_gate, HasDecidedGate, RunsAsDecided, IsOfWord, AreTightPotentials, IsGreatestLower, IsLeastUpper};

use crate::tightness::is_tight;
use mari_gates::{opens, states_at};
use mari_market::{Activation, Border, Conflict, Market, Order, Prefix, Standing};
use mari_units::{CAP, Cents, MOST_GATES};
use mari_welfare::is_feasible;

/// Whether the prefix decides the gate as open.
fn is_open(prefix: &Prefix, gate: u32) -> bool
    requires gate { gate < prefix.now.length }
    requires few { prefix.now.length ≤ MOST_GATES }
    ensures { result ≡ opens_gate prefix.now gate }
{
    opens(prefix, gate)
}

/// Whether an order runs exactly where its gate is decided as open.
fn runs_as_decided(prefix: &Prefix, order: &Order, mw: u32) -> bool
    requires gate { HasDecidedGate prefix.now.length order.now }
    requires few { prefix.now.length ≤ MOST_GATES }
    ensures { IsTrue result ↔ RunsAsDecided (opens_gate prefix.now) order.now.gate mw }
{
    match order.gate {
        None => true,
        Some(gate) => is_open(prefix, gate) == (mw > 0),
    }
}

/// Whether each order runs exactly where its gate is decided as open.
fn run_as_decided(prefix: &Prefix, orders: &[Order], mw: &[u32]) -> bool
    requires lengths { length mw.now ≡ length orders.now }
    requires orders { All (HasDecidedGate prefix.now.length) orders.now }
    requires few { prefix.now.length ≤ MOST_GATES }
    ensures { IsTrue result ↔ AllZip (λ o q. RunsAsDecided (opens_gate prefix.now) o.gate q) orders.now mw.now }
{
    for (i, order) in orders.iter().enumerate() {
        if !runs_as_decided(prefix, order, mw[i]) {
            return false;
        }
    }
    true
}

/// The standing of an order where the gates are as the prefix decides.
fn standing_at(prefix: &Prefix, order: &Order) -> Standing
    requires gate { HasDecidedGate prefix.now.length order.now }
    requires few { prefix.now.length ≤ MOST_GATES }
    ensures { result ≡ standing_of (opens_gate prefix.now) order.now.gate }
{
    match order.gate {
        None => Standing::Plain,
        Some(gate) if is_open(prefix, gate) => Standing::InOpen,
        Some(_) => Standing::InClosed,
    }
}

/// Whether some border makes the price of the second zone at least that of the first.
fn leads(borders: &[Border], flow: &[i64], first: u32, second: u32) -> bool
    requires { length flow.now ≡ length borders.now }
    ensures { IsTrue result ↔ LeadsTo Rising borders.now flow.now first second }
{
    for (i, border) in borders.iter().enumerate() {
        if border.leads(flow[i], first, second) {
            return true;
        }
    }
    false
}

/// Whether some border leads from each zone of a chain to the next.
fn leads_on(borders: &[Border], flow: &[i64], first: u32, rest: &[u32]) -> bool
    requires { length flow.now ≡ length borders.now }
    ensures { IsTrue result ↔ IsChainOf borders.now flow.now first rest.now }
{
    let mut from = first;
    for to in rest {
        if !leads(borders, flow, from, *to) {
            return false;
        }
        from = *to;
    }
    true
}

/// The last zone of a chain.
fn last_of(first: u32, rest: &[u32]) -> u32
    ensures { result ≡ last_of first rest.now }
{
    let mut last = first;
    for zone in rest {
        last = *zone;
    }
    last
}

/// The greater of a bound and the lower bound that an order sets, if it sets one.
fn raised(prefix: &Prefix, order: &Order, mw: u32, zone: u32, bound: i64) -> i64
    requires gate { HasDecidedGate prefix.now.length order.now }
    requires few { prefix.now.length ≤ MOST_GATES }
    ensures least { bound ≤ℤ result }
    ensures above { (c : ℤ) → SetsLowerAt (opens_gate prefix.now) zone c order.now mw → c ≤ℤ result }
    ensures reached { (result ≡ bound) ⊎ SetsLowerAt (opens_gate prefix.now) zone result order.now mw }
{
    let standing = standing_at(prefix, order);
    if order.zone == zone && bound < order.price.0 && order.sets_lower(standing, mw) {
        order.price.0
    } else {
        bound
    }
}

/// The lesser of a bound and the upper bound that an order sets, if it sets one.
fn lowered(prefix: &Prefix, order: &Order, mw: u32, zone: u32, bound: i64) -> i64
    requires gate { HasDecidedGate prefix.now.length order.now }
    requires few { prefix.now.length ≤ MOST_GATES }
    ensures greatest { result ≤ℤ bound }
    ensures below { (c : ℤ) → SetsUpperAt (opens_gate prefix.now) zone c order.now mw → result ≤ℤ c }
    ensures reached { (result ≡ bound) ⊎ SetsUpperAt (opens_gate prefix.now) zone result order.now mw }
{
    let standing = standing_at(prefix, order);
    if order.zone == zone && order.price.0 < bound && order.sets_upper(standing, mw) {
        order.price.0
    } else {
        bound
    }
}

/// The greatest lower bound of a zone's price, in cents per MWh.
fn greatest_lower(prefix: &Prefix, orders: &[Order], mw: &[u32], zone: u32) -> i64
    requires lengths { length mw.now ≡ length orders.now }
    requires orders { All (HasDecidedGate prefix.now.length) orders.now }
    requires few { prefix.now.length ≤ MOST_GATES }
    ensures { IsGreatestLower (opens_gate prefix.now) zone orders.now mw.now result }
{
    let mut bound = -CAP;
    for (i, order) in orders.iter().enumerate() {
        bound = raised(prefix, order, mw[i], zone, bound);
    }
    bound
}

/// The least upper bound of a zone's price, in cents per MWh.
fn least_upper(prefix: &Prefix, orders: &[Order], mw: &[u32], zone: u32) -> i64
    requires lengths { length mw.now ≡ length orders.now }
    requires orders { All (HasDecidedGate prefix.now.length) orders.now }
    requires few { prefix.now.length ≤ MOST_GATES }
    ensures { IsLeastUpper (opens_gate prefix.now) zone orders.now mw.now result }
{
    let mut bound = CAP;
    for (i, order) in orders.iter().enumerate() {
        bound = lowered(prefix, order, mw[i], zone, bound);
    }
    bound
}

/// Whether a feasible activation opens exactly the gates that the prefix opens, which decides all.
fn has_gate_word(market: &Market, prefix: &Prefix, activation: &Activation) -> bool
    requires market { IsValid market.now }
    requires prefix { IsFeasiblePrefix market.now prefix.now }
    requires activation { IsFeasible market.now activation.now }
    ensures { IsTrue result ↔ (gate_word_of market.now activation.now ≡ word_of prefix.now) }
{
    prefix.length as usize == market.gates.as_slice().len()
        && run_as_decided(prefix, market.orders.as_slice(), activation.mw.as_slice())
}

/// Whether the activation is feasible and opens exactly the gates that the prefix opens, which decides all.
fn is_of_word(market: &Market, prefix: &Prefix, activation: &Activation) -> bool
    requires market { IsValid market.now }
    requires prefix { IsFeasiblePrefix market.now prefix.now }
    ensures { IsTrue result ↔ IsOfWord market.now prefix.now activation.now }
{
    is_feasible(market, activation) && has_gate_word(market, prefix, activation)
}

/// Whether some border leads from each zone of a chain to the next.
fn is_chain(market: &Market, activation: &Activation, first: u32, rest: &[u32]) -> bool
    requires { length activation.now.flow ≡ length market.now.borders }
    ensures { IsTrue result ↔ IsChain market.now activation.now first rest.now }
{
    leads_on(
        market.borders.as_slice(),
        activation.flow.as_slice(),
        first,
        rest,
    )
}

/// Whether one number is less than another.
fn is_below(low: i64, high: i64) -> bool
    ensures { IsTrue result ↔ (low <ℤ high) }
{
    low < high
}

/// Whether a lower bound of the first zone's price is greater than an upper bound of the last one's.
fn contradicts(
    market: &Market,
    prefix: &Prefix,
    activation: &Activation,
    first: u32,
    last: u32,
) -> bool
    requires market { IsValid market.now }
    requires activation { IsOfWord market.now prefix.now activation.now }
    ensures { IsTrue result ↔ Contradicts market.now activation.now first last }
{
    let (orders, mw) = (market.orders.as_slice(), activation.mw.as_slice());
    let upper = least_upper(prefix, orders, mw, last);
    let lower = greatest_lower(prefix, orders, mw, first);
    is_below(upper, lower)
}

/// Whether the prices along a chain contradict each other.
fn is_contradiction(
    market: &Market,
    prefix: &Prefix,
    activation: &Activation,
    chain: &[u32],
) -> bool
    requires market { IsValid market.now }
    requires activation { IsOfWord market.now prefix.now activation.now }
    ensures { IsTrue result ↔ IsContradiction market.now activation.now chain.now }
{
    match chain {
        [] => false,
        [first, rest @ ..] => {
            is_chain(market, activation, *first, rest)
                && contradicts(market, prefix, activation, *first, last_of(*first, rest))
        }
    }
}

/// Whether potentials are within the cap and tight for the activation.
fn has_tight_potentials(
    market: &Market,
    prefix: &Prefix,
    activation: &Activation,
    potentials: &[Cents],
) -> bool
    requires market { IsValid market.now }
    requires prefix { IsFeasiblePrefix market.now prefix.now }
    requires activation { IsOfWord market.now prefix.now activation.now }
    ensures { IsTrue result ↔ AreTightPotentials market.now activation.now potentials.now }
{
    market.are_prices(potentials)
        && is_tight(market, &states_at(market, prefix), activation, potentials)
}

/// Whether the zones of a chain are there.
fn are_zones(chain: &[u32], count: u32) -> bool
    ensures { IsTrue result ↔ All (λ z. z < count) chain.now }
{
    chain.iter().all(|zone| *zone < count)
}

/// Whether a chain has no more zones than there are, all of them there, and its prices contradict each other.
fn is_contradictory_chain(
    market: &Market,
    prefix: &Prefix,
    activation: &Activation,
    chain: &[u32],
) -> bool
    requires market { IsValid market.now }
    requires activation { IsOfWord market.now prefix.now activation.now }
    ensures { IsTrue result ↔ IsContradictoryChain market.now activation.now chain.now }
{
    chain.len() <= market.zones as usize
        && are_zones(chain, market.zones)
        && is_contradiction(market, prefix, activation, chain)
}

/// Whether a conflict holds at a prefix.
pub(crate) fn is_conflict(market: &Market, prefix: &Prefix, conflict: &Conflict) -> bool
    requires market { IsValid market.now }
    requires prefix { IsFeasiblePrefix market.now prefix.now }
    ensures { IsTrue result ↔ IsConflict market.now (word_of prefix.now) conflict.now }
{
    let activation = &conflict.activation;
    if !is_of_word(market, prefix, activation) {
        return false;
    }
    let potentials = conflict.potentials.cents.as_slice();
    if !has_tight_potentials(market, prefix, activation, potentials) {
        return false;
    }
    is_contradictory_chain(market, prefix, activation, conflict.chain.as_slice())
}
