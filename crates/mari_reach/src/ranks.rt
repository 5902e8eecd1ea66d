//! Twins: gates whose orders may be exchanged, and which of them ranks before which.

ghost use Rattle.std.specs.Prelude.{◌≡◌, ◌&&◌, ◌||◌, if◌then◌else◌, ◌<◌, ◌≤◌, ℕ, None, Some, false, length, true};
ghost use Rattle.std.specs.List.{All, list_any};
ghost use Rattle.mari_market.specs.Activation.{is_gate};
ghost use Rattle.mari_market.specs.Gates.{ParentsEarlier};
ghost use Rattle.mari_market.specs.Market.{IsValid, IsValidOrder};
ghost use Rattle.mari_market.specs.Prefix.{opens_in};
ghost use Rattle.mari_reach.specs.Tables.{AreMarked, IsLoneOf, IsTwinsOf, lone_in, outranks_in};
ghost use Rattle.mari_reach.specs.Twins.{are_alike, are_indivisible, is_better, is_child, is_one_side, may_exchange, orders_of, ranks_before, sole, stands_alone};

use crate::marks::Marks;
use mari_market::{GateInfo, Market, Order, Side};
use mari_units::{Cents, MOST_GATES, MOST_ZONES};

/// Whether two sides are the same.
fn is_one_side(one: Side, other: Side) -> bool
    ensures { result ≡ is_one_side one other }
{
    match (one, other) {
        (Side::Inject, Side::Inject) | (Side::Withdraw, Side::Withdraw) => true,
        (Side::Inject, Side::Withdraw) | (Side::Withdraw, Side::Inject) => false,
    }
}

/// Whether orders are indivisible and of one size.
fn are_indivisible(one: &Order, other: &Order) -> bool
    ensures { result ≡ are_indivisible one.now other.now }
{
    one.least == one.greatest && other.least == other.greatest && one.greatest == other.greatest
}

/// Whether orders are of one price, and their least and greatest quantities the same.
fn are_alike(one: &Order, other: &Order) -> bool
    ensures { result ≡ are_alike one.now other.now }
{
    one.least == other.least && one.greatest == other.greatest && one.price.0 == other.price.0
}

/// Whether orders are of one zone and side, and indivisible of one size, or alike.
fn may_exchange(one: &Order, other: &Order) -> bool
    ensures { result ≡ may_exchange one.now other.now }
{
    one.zone == other.zone
        && is_one_side(one.side, other.side)
        && (are_indivisible(one, other) || are_alike(one, other))
}

/// Whether a price of a side is better than another: lower of injections, higher of withdrawals.
fn is_better(side: Side, price: Cents, other: Cents) -> bool
    ensures { result ≡ is_better side price.0 other.0 }
{
    match side {
        Side::Inject => price.0 < other.0,
        Side::Withdraw => price.0 > other.0,
    }
}

/// Whether the order of a gate ranks before that of another: by a better price, or by the same price and a later place in
/// the file.
fn ranks_before(order: &Order, gate: u32, other: &Order, other_gate: u32) -> bool
    ensures { result ≡ ranks_before order.now gate other.now other_gate }
{
    is_better(order.side, order.price, other.price)
        || (order.price.0 == other.price.0 && other_gate < gate)
}

/// The gates that are parents.
fn parents_among(gates: &[GateInfo]) -> Marks
    requires few { length gates.now ≤ MOST_GATES }
    requires earlier { ParentsEarlier gates.now }
    ensures { (g : ℕ) → opens_in result g ≡ list_any (is_child g) gates.now }
{
    let mut parents = Marks::none();
    for gate in 0..gates.len() {
        if let Some(parent) = gates[gate].parent {
            parents.mark(parent);
        }
    }
    parents
}

/// Whether a gate has no group, no parent and no child.
fn stands_alone(gates: &[GateInfo], parents: &Marks, gate: usize) -> bool
    requires few { length gates.now ≤ MOST_GATES }
    requires there { gate < length gates.now }
    requires parents { opens_in parents.now gate ≡ list_any (is_child gate) gates.now }
    ensures { result ≡ stands_alone gates.now gate }
{
    gates[gate].group.is_none() && gates[gate].parent.is_none() && !parents.has(gate as u32)
}

/// The orders of lone gates: of each gate without a group, a parent or a child that has one order alone.
#[derive(Drop)]
struct Lone {
    orders: [Option<Order>; MOST_GATES],
}

impl Lone {
    /// No orders.
    fn none() -> Lone
        ensures { (g : ℕ) → lone_in result g ≡ None }
    {
        Lone {
            orders: [None; MOST_GATES],
        }
    }

    /// Takes an order as its gate's only one, or takes away what was taken as that.
    fn add_to(&mut self, seen: &mut Marks, gate: u32, order: &Order)
        requires { gate < MOST_GATES }
        ensures orders { (g : ℕ)
            → lone_in self.new g ≡ (if is_gate g (Some gate) then (if opens_in seen.old gate then None else Some order.now) else lone_in self.old g) }
        ensures seen { (g : ℕ) → opens_in seen.new g ≡ (opens_in seen.old g || is_gate g (Some gate)) }
    {
        self.orders[gate as usize] = if seen.has(gate) { None } else { Some(*order) };
        seen.mark(gate);
    }

    /// Does the same with an order of any gate or of none.
    fn add(&mut self, seen: &mut Marks, order: &Order)
        requires { IsValidOrder MOST_ZONES MOST_GATES order.now }
        ensures orders { (g : ℕ)
            → lone_in self.new g ≡ (if is_gate g order.now.gate then (if opens_in seen.old g then None else Some order.now) else lone_in self.old g) }
        ensures seen { (g : ℕ) → opens_in seen.new g ≡ (opens_in seen.old g || is_gate g order.now.gate) }
    {
        if let Some(gate) = order.gate {
            self.add_to(seen, gate, order);
        }
    }

    /// The only order of each gate that has one alone.
    fn among(orders: &[Order]) -> Lone
        requires { All (IsValidOrder MOST_ZONES MOST_GATES) orders.now }
        ensures { (g : ℕ) → lone_in result g ≡ sole (orders_of orders.now g) }
    {
        let mut lone = Lone::none();
        let mut seen = Marks::none();
        for order in orders {
            lone.add(&mut seen, order);
        }
        lone
    }

    /// Leaves out a gate that doesn't stand alone.
    fn sift(&mut self, gates: &[GateInfo], parents: &Marks, gate: usize)
        requires few { length gates.now ≤ MOST_GATES }
        requires there { gate < length gates.now }
        requires parents { opens_in parents.now gate ≡ list_any (is_child gate) gates.now }
        ensures here { lone_in self.new gate ≡ (if stands_alone gates.now gate then lone_in self.old gate else None) }
        ensures others { (g : ℕ) → (g ≡ gate → ⊥) → lone_in self.new g ≡ lone_in self.old g }
    {
        if !stands_alone(gates, parents, gate) {
            self.orders[gate] = None;
        }
    }

    /// Leaves out the gates that don't stand alone.
    fn keep_alone(&mut self, gates: &[GateInfo])
        requires few { length gates.now ≤ MOST_GATES }
        requires earlier { ParentsEarlier gates.now }
        ensures { (g : ℕ) → g < length gates.now → lone_in self.new g ≡ (if stands_alone gates.now g then lone_in self.old g else None) }
    {
        let parents = parents_among(gates);
        for gate in 0..gates.len() {
            self.sift(gates, &parents, gate);
        }
    }

    /// The orders of a market's lone gates.
    fn of(market: &Market) -> Lone
        requires { IsValid market.now }
        ensures { IsLoneOf market.now result }
    {
        let mut lone = Lone::among(market.orders.as_slice());
        lone.keep_alone(market.gates.as_slice());
        lone
    }

    /// Whether a gate is a twin of another and ranks before it.
    fn outranks(&self, gate: u32, other: u32) -> bool
        requires gate { gate < MOST_GATES }
        requires other { other < MOST_GATES }
        ensures { result ≡ outranks_in self.now gate other }
    {
        match (&self.orders[gate as usize], &self.orders[other as usize]) {
            (Some(order), Some(twin)) => {
                may_exchange(order, twin) && ranks_before(order, gate, twin, other)
            }
            _ => false,
        }
    }

    /// Marks two gates, if they are twins.
    fn mark_pair(&self, twinned: &mut Marks, gate: u32, other: u32)
        requires gate { gate < MOST_GATES }
        requires other { other < MOST_GATES }
        ensures kept { (g : ℕ) → opens_in twinned.old g ≡ true → opens_in twinned.new g ≡ true }
        ensures pair { AreMarked self.now twinned.new gate other }
    {
        if self.outranks(gate, other) || self.outranks(other, gate) {
            twinned.mark(gate);
            twinned.mark(other);
        }
    }

    /// Marks a gate and each up to it of which it is a twin.
    fn mark_twins(&self, twinned: &mut Marks, gate: u32)
        requires { gate < MOST_GATES }
        ensures kept { (g : ℕ) → opens_in twinned.old g ≡ true → opens_in twinned.new g ≡ true }
        ensures pairs { (h : ℕ) → h ≤ gate → AreMarked self.now twinned.new gate h }
    {
        for other in 0..gate + 1 {
            self.mark_pair(twinned, gate, other);
        }
    }

    /// Gates among which are all that have a twin.
    fn twinned(&self, gates: u32) -> Marks
        requires { gates ≤ MOST_GATES }
        ensures { (g h : ℕ) → g < gates → h ≤ g → AreMarked self.now result g h }
    {
        let mut twinned = Marks::none();
        for gate in 0..gates {
            self.mark_twins(&mut twinned, gate);
        }
        twinned
    }
}

/// Which gates of a market are twins, and which of two ranks before the other.
#[derive(Drop)]
pub(crate) struct Twins {
    /// The orders of lone gates.
    lone: Lone,
    /// Gates among which are all that have a twin.
    twinned: Marks,
}

impl Twins {
    /// The twins of a market.
    pub(crate) fn of(market: &Market) -> Twins
        requires { IsValid market.now }
        ensures { IsTwinsOf market.now result }
    {
        let lone = Lone::of(market);
        let twinned = lone.twinned(market.gates.as_slice().len() as u32);
        Twins { lone, twinned }
    }

    /// The same without a look at each pair of gates, for a few states: any gate may have a twin.
    pub(crate) fn of_few_states(market: &Market) -> Twins
        requires { IsValid market.now }
        ensures { IsTwinsOf market.now result }
    {
        Twins {
            lone: Lone::of(market),
            twinned: Marks::all(),
        }
    }

    /// Whether a gate may have a twin; one for which it says no has none.
    pub(crate) fn may_have(&self, gate: u32) -> bool
        ensures { result ≡ opens_in self.now.twinned gate }
    {
        self.twinned.has(gate)
    }

    /// Whether a gate is a twin of another and ranks before it.
    pub(crate) fn outranks(&self, gate: u32, other: u32) -> bool
        requires gate { gate < MOST_GATES }
        requires other { other < MOST_GATES }
        ensures { result ≡ outranks_in self.now.lone gate other }
    {
        self.lone.outranks(gate, other)
    }
}
