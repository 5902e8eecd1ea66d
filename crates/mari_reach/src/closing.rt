//! The gates that decisions open and close.

ghost use Rattle.std.specs.Prelude.{◌≡◌, ◌==◌, ◌&&◌, ◌||◌, ◌<◌, ◌≤◌, ℕ, length};
ghost use Rattle.std.specs.List.{All, list_any};
ghost use Rattle.mari_market.specs.declared.market.Order.{Order};
ghost use Rattle.mari_market.specs.Activation.{is_gate};
ghost use Rattle.mari_market.specs.Gates.{ParentsEarlier, parent_of};
ghost use Rattle.mari_market.specs.Market.{IsValid, IsValidOrder};
ghost use Rattle.mari_market.specs.Prefix.{opens_in};
ghost use Rattle.mari_reach.specs.State.{are_rivals, closes, closes_by, has_rival, is_opened, is_shut, line_of, opens, opens_by, AreDecisions, IsDecision};
ghost use Rattle.mari_reach.specs.Tables.{HasOpened, HasPrices, IsTwinsOf, SpeaksFor, loses_in};
ghost use Rattle.mari_reach.specs.Twins.{outranks};

use crate::decisions::Decision;
use crate::marks::Marks;
use crate::prices::PriceBox;
use crate::ranks::Twins;
use mari_market::{GateInfo, Market, Order};
use mari_units::{MOST_GATES, MOST_ZONES};

/// Marks the twins of a gate that rank before it.
fn mark_better(marks: &mut Marks, market: &Market, twins: &Twins, gate: u32)
    requires market { IsValid market.now }
    requires twins { IsTwinsOf market.now twins.now }
    requires there { gate < length market.now.gates }
    ensures { (g : ℕ) → g < length market.now.gates → opens_in marks.new g ≡ (opens_in marks.old g || outranks market.now g gate) }
{
    if !twins.may_have(gate) {
        return;
    }
    for other in 0..market.gates.as_slice().len() {
        marks.mark_if(other as u32, twins.outranks(other as u32, gate));
    }
}

/// Marks the twins of a gate before which it ranks.
fn mark_worse(marks: &mut Marks, market: &Market, twins: &Twins, gate: u32)
    requires market { IsValid market.now }
    requires twins { IsTwinsOf market.now twins.now }
    requires there { gate < length market.now.gates }
    ensures { (g : ℕ) → g < length market.now.gates → opens_in marks.new g ≡ (opens_in marks.old g || outranks market.now gate g) }
{
    if !twins.may_have(gate) {
        return;
    }
    for other in 0..market.gates.as_slice().len() {
        marks.mark_if(other as u32, twins.outranks(gate, other as u32));
    }
}

/// Marks the gates that a decision opens: one that it decides as open, all above it, and the twins that rank before it.
fn mark_opened(opened: &mut Marks, market: &Market, twins: &Twins, decision: &Decision)
    requires market { IsValid market.now }
    requires twins { IsTwinsOf market.now twins.now }
    requires decision { IsDecision market.now decision.now }
    ensures { (g : ℕ) → g < length market.now.gates → opens_in opened.new g ≡ (opens_in opened.old g || opens_by market.now g decision.now) }
{
    match *decision {
        Decision::Gate(gate, is_open) => {
            if is_open {
                opened.mark_line(market.gates.as_slice(), gate);
                mark_better(opened, market, twins, gate);
            }
        }
        Decision::AtMost(_, _) => {}
        Decision::Above(_, _) => {}
    }
}

/// Marks the gates that decisions open, and no others.
pub(crate) fn set_opened(opened: &mut Marks, market: &Market, twins: &Twins, decisions: &[Decision])
    requires market { IsValid market.now }
    requires twins { IsTwinsOf market.now twins.now }
    requires decisions { AreDecisions market.now decisions.now }
    ensures { HasOpened market.now decisions.now opened.new }
{
    opened.clear();
    for decision in decisions {
        mark_opened(opened, market, twins, decision);
    }
}

/// Marks the gates that a decision closes: one that it decides as closed, and the twins before which it ranks.
fn mark_one_closed(marks: &mut Marks, market: &Market, twins: &Twins, decision: &Decision)
    requires market { IsValid market.now }
    requires twins { IsTwinsOf market.now twins.now }
    requires decision { IsDecision market.now decision.now }
    ensures { (g : ℕ) → g < length market.now.gates → opens_in marks.new g ≡ (opens_in marks.old g || closes_by market.now g decision.now) }
{
    match *decision {
        Decision::Gate(gate, is_open) => {
            if !is_open {
                marks.mark(gate);
                mark_worse(marks, market, twins, gate);
            }
        }
        Decision::AtMost(_, _) => {}
        Decision::Above(_, _) => {}
    }
}

/// Marks the gates that decisions close.
fn mark_closed(marks: &mut Marks, market: &Market, twins: &Twins, decisions: &[Decision])
    requires market { IsValid market.now }
    requires twins { IsTwinsOf market.now twins.now }
    requires decisions { AreDecisions market.now decisions.now }
    ensures { (g : ℕ) → g < length market.now.gates → opens_in marks.new g ≡ (opens_in marks.old g || closes market.now decisions.now g) }
{
    for decision in decisions {
        mark_one_closed(marks, market, twins, decision);
    }
}

/// Marks the gates with an order that always loses.
fn mark_losses(marks: &mut Marks, prices: &PriceBox, orders: &[Order])
    requires { All (IsValidOrder MOST_ZONES MOST_GATES) orders.now }
    ensures { (g : ℕ) → opens_in marks.new g ≡ (opens_in marks.old g || list_any (λ (o : Order). is_gate g o.gate && loses_in prices.now o) orders.now) }
{
    for order in orders {
        if let Some(gate) = order.gate
            && prices.loses(order)
        {
            marks.mark(gate);
        }
    }
}

/// Whether two gates are different ones of one group.
fn are_rivals(gates: &[GateInfo], gate: usize, other: usize) -> bool
    requires gate { gate < length gates.now }
    requires other { other < length gates.now }
    ensures { result ≡ are_rivals gates.now gate other }
{
    gate != other && gates[gate].group.is_some() && gates[gate].group == gates[other].group
}

/// Marks the other gates of a gate's group.
fn mark_group(marks: &mut Marks, gates: &[GateInfo], gate: usize)
    requires few { length gates.now ≤ MOST_GATES }
    requires there { gate < length gates.now }
    ensures { (g : ℕ) → g < length gates.now → opens_in marks.new g ≡ (opens_in marks.old g || are_rivals gates.now g gate) }
{
    for other in 0..gates.len() {
        if are_rivals(gates, other, gate) {
            marks.mark(other as u32);
        }
    }
}

/// Marks the other gates of an open gate's group.
fn mark_rivals_of(marks: &mut Marks, gates: &[GateInfo], opened: &Marks, gate: usize)
    requires few { length gates.now ≤ MOST_GATES }
    requires there { gate < length gates.now }
    ensures { (g : ℕ) → g < length gates.now → opens_in marks.new g ≡ (opens_in marks.old g || (are_rivals gates.now g gate && opens_in opened.now gate)) }
{
    if gates[gate].group.is_some() && opened.at(gate as u32) {
        mark_group(marks, gates, gate);
    }
}

/// Marks the gates whose group has another open gate.
fn mark_rivals(marks: &mut Marks, gates: &[GateInfo], opened: &Marks)
    requires few { length gates.now ≤ MOST_GATES }
    ensures { (g : ℕ) → g < length gates.now → opens_in marks.new g ≡ (opens_in marks.old g || has_rival gates.now (opens_in opened.now) g) }
{
    for gate in 0..gates.len() {
        mark_rivals_of(marks, gates, opened, gate);
    }
}

/// Marks the gates that are closed themselves, and no others.
pub(crate) fn set_shut(
    shut: &mut Marks,
    market: &Market,
    orders: &[Order],
    twins: &Twins,
    decisions: &[Decision],
    opened: &Marks,
    prices: &PriceBox,
)
    requires market { IsValid market.now }
    requires twins { IsTwinsOf market.now twins.now }
    requires orders { SpeaksFor market.now orders.now }
    requires decisions { AreDecisions market.now decisions.now }
    requires opened { HasOpened market.now decisions.now opened.now }
    requires prices { HasPrices market.now decisions.now prices.now }
    ensures { (g : ℕ) → g < length market.now.gates → opens_in shut.new g ≡ is_shut market.now decisions.now g }
{
    shut.clear();
    mark_closed(shut, market, twins, decisions);
    mark_rivals(shut, market.gates.as_slice(), opened);
    mark_losses(shut, prices, orders);
}

/// Marks a gate whose parent is marked.
fn close_below(closed: &mut Marks, gates: &[GateInfo], gate: usize)
    requires few { length gates.now ≤ MOST_GATES }
    requires earlier { ParentsEarlier gates.now }
    requires there { gate < length gates.now }
    ensures { (g : ℕ) → opens_in closed.new g ≡ (opens_in closed.old g || (is_opened (opens_in closed.old) (parent_of gates.now gate) && (gate == g))) }
{
    let is_below = closed.has_some(gates[gate].parent);
    closed.mark_if(gate as u32, is_below);
}

/// Marks the gates in whose line one is marked.
pub(crate) fn close_all_below(closed: &mut Marks, gates: &[GateInfo])
    requires few { length gates.now ≤ MOST_GATES }
    requires earlier { ParentsEarlier gates.now }
    ensures { (g : ℕ) → g < length gates.now → opens_in closed.new g ≡ list_any (opens_in closed.old) (line_of gates.now g) }
{
    for gate in 0..gates.len() {
        close_below(closed, gates, gate);
    }
}
