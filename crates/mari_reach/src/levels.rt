//! Plain orders' part of the dual value, by a level for each zone and side: at the better side of it they run in full.

ghost use Rattle.std.specs.Prelude.{◌≡◌, if◌then◌else◌, ℕ, ℤ, pos, ◌≤ℤ◌, neg_ℤ, ◌≤◌, ◌<◌, None, length};
ghost use Rattle.std.specs.List.{All};
ghost use Rattle.mari_market.specs.Dual.{best_order};
ghost use Rattle.mari_market.specs.Market.{IsValidOrder};
ghost use Rattle.mari_market.specs.Price.{IsCapped, IsPrice};
ghost use Rattle.mari_market.specs.Sums.{int_at};
ghost use Rattle.mari_reach.specs.declared.states.State.{State as StateRecord};
ghost use Rattle.mari_reach.specs.Ladders.{level_at};
ghost use Rattle.mari_reach.specs.Tables.{span_in};
ghost use Rattle.mari_reach.specs.Values.{cut_level, HasLevels, inject_below, runs_at, withdraw_above};

use crate::states::State;
use crate::worth::{amount, gap, potential_at};
use mari_market::{CutSide, MOST_WORTH, Order, Side};
use mari_units::{CAP, Cents, MOST_GATES, MOST_ZONES};

/// For each zone the price below which a plain injection runs in full, and the price above which a withdrawal does, where
/// they are worth most.
#[derive(Drop)]
pub(crate) struct Levels {
    injects: [i64; MOST_ZONES],
    withdraws: [i64; MOST_ZONES],
}

/// The price below which a plain injection is worth most at its greatest quantity.
fn inject_below(potential: Cents, low: i64, high: i64) -> i64
    requires { IsPrice potential.0 }
    ensures { result ≡ inject_below potential.0 low high }
{
    low.max(potential.0.min(high) + 1)
}

/// The price above which a plain withdrawal is.
fn withdraw_above(potential: Cents, low: i64, high: i64) -> i64
    requires { IsPrice potential.0 }
    ensures { result ≡ withdraw_above potential.0 low high }
{
    high.min(potential.0.max(low) - 1)
}

/// The level of a side at whose better side a plain order puts in the most that a cut counts of it.
pub(crate) fn cut_level(cut: CutSide, side: Side, low: i64, high: i64) -> i64
    ensures { result ≡ cut_level cut side low high }
{
    match (cut, side) {
        (CutSide::Out, Side::Inject) => low,
        (CutSide::Out, Side::Withdraw) => withdraw_above(Cents(-CAP), low, high),
        (CutSide::In, Side::Inject) => inject_below(Cents(CAP), low, high),
        (CutSide::In, Side::Withdraw) => high,
    }
}

impl Levels {
    /// No levels.
    fn none() -> Levels {
        Levels {
            injects: [0; MOST_ZONES],
            withdraws: [0; MOST_ZONES],
        }
    }

    /// Sets a zone's levels.
    fn set(&mut self, state: &State, zone: u32, potential: Cents)
        requires zone { zone < MOST_ZONES }
        requires potential { IsPrice potential.0 }
        ensures injects { int_at self.new.injects zone ≡ inject_below potential.0 (int_at state.now.prices.low zone) (int_at state.now.prices.high zone) }
        ensures withdraws { int_at self.new.withdraws zone ≡ withdraw_above potential.0 (int_at state.now.prices.low zone) (int_at state.now.prices.high zone) }
        ensures other_injects { (z : ℕ) → (z ≡ zone → ⊥) → int_at self.new.injects z ≡ int_at self.old.injects z }
        ensures other_withdraws { (z : ℕ) → (z ≡ zone → ⊥) → int_at self.new.withdraws z ≡ int_at self.old.withdraws z }
    {
        let zone = zone as usize;
        let low = state.prices.low[zone];
        let high = state.prices.high[zone];
        self.injects[zone] = inject_below(potential, low, high);
        self.withdraws[zone] = withdraw_above(potential, low, high);
    }

    /// The levels of the zones' potentials in a state.
    pub(crate) fn of(state: &State, potentials: &[Cents]) -> Levels
        requires few { length potentials.now ≤ MOST_ZONES }
        requires potentials { All IsCapped potentials.now }
        ensures { HasLevels state.now potentials.now result }
    {
        let mut levels = Levels::none();
        for zone in 0..potentials.len() as u32 {
            levels.set(state, zone, potential_at(potentials, zone));
        }
        levels
    }

    /// A side's level in a zone.
    pub(crate) fn at(&self, side: Side, zone: u32) -> i64
        requires { zone < MOST_ZONES }
        ensures { result ≡ level_at self.now side zone }
    {
        match side {
            Side::Inject => self.injects[zone as usize],
            Side::Withdraw => self.withdraws[zone as usize],
        }
    }

    /// The quantity at which a plain order is worth most.
    fn quantity(&self, order: &Order) -> u32
        requires { order.now.zone < MOST_ZONES }
        ensures value { result ≡ (if runs_at order.now.side order.now.price.0 (int_at self.now.injects order.now.zone)
            (int_at self.now.withdraws order.now.zone) then order.now.greatest else 0) }
        ensures most { result ≤ order.now.greatest }
    {
        let runs = match order.side {
            Side::Inject => order.price.0 < self.injects[order.zone as usize],
            Side::Withdraw => self.withdraws[order.zone as usize] < order.price.0,
        };
        if runs { order.greatest } else { 0 }
    }
}

/// The most that a plain order gains at its zone's potential.
pub(crate) fn plain_value(order: &Order, levels: &Levels, potentials: &[Cents]) -> i64
    requires order { IsValidOrder (length potentials.now) MOST_GATES order.now }
    requires plain { order.now.gate ≡ None }
    requires few { length potentials.now ≤ MOST_ZONES }
    requires potentials { All IsCapped potentials.now }
    ensures value { (r : StateRecord) → HasLevels r potentials.now levels.now → result ≡ best_order (span_in r) potentials.now order.now }
    ensures low { neg_ℤ (pos MOST_WORTH) ≤ℤ result }
    ensures high { result ≤ℤ pos MOST_WORTH }
{
    let potential = potential_at(potentials, order.zone);
    let mw = levels.quantity(order);
    amount(gap(order, potential), mw)
}
