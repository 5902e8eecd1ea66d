//! The prices that decisions and open gates leave to zones.

ghost use Rattle.std.specs.Prelude.{◌≡◌, ◌==◌, ◌<◌, ℕ, ℤ, pos, neg_ℤ, ◌+ℤ◌, ◌≤ℤ◌, if◌then◌else◌, All};
ghost use Rattle.std.specs.Int.{int_max, int_min};
ghost use Rattle.mari_market.specs.Market.{IsValid, IsValidOrder};
ghost use Rattle.mari_market.specs.Prefix.{opens_in};
ghost use Rattle.mari_market.specs.Price.{IsPrice};
ghost use Rattle.mari_market.specs.Sums.{int_at};
ghost use Rattle.mari_reach.specs.State.{ceiling_at, ceiling_said, floor_at, floor_said, high_by, high_said, low_by, low_said, AreDecisions, IsDecision};
ghost use Rattle.mari_reach.specs.Tables.{gains_in, is_dearer_in, loses_in};

use crate::decisions::Decision;
use crate::marks::Marks;
use mari_market::{Market, Order, Side};
use mari_units::{CAP, Cents, MOST_GATES, MOST_ZONES};

/// The least and the greatest price of each zone, in cents per MWh.
#[derive(Drop)]
pub struct PriceBox {
    /// The least prices.
    pub low: [i64; MOST_ZONES],
    /// The greatest prices.
    pub high: [i64; MOST_ZONES],
}

/// A price that is a cent more.
fn next_price(price: Cents) -> Cents
    requires { IsPrice price.0 }
    ensures { result.0 ≡ price.0 +ℤ pos 1 }
{
    Cents(price.0 + 1)
}

impl PriceBox {
    /// Every price within the cap.
    pub(crate) fn whole() -> PriceBox {
        PriceBox {
            low: [-CAP; MOST_ZONES],
            high: [CAP; MOST_ZONES],
        }
    }

    /// Leaves every price within the cap.
    fn widen(&mut self)
        ensures low { (z : ℕ) → z < MOST_ZONES → int_at self.new.low z ≡ neg_ℤ CAP }
        ensures high { (z : ℕ) → z < MOST_ZONES → int_at self.new.high z ≡ CAP }
        ensures low_kept { (z : ℕ) → neg_ℤ CAP ≤ℤ int_at self.new.low z }
        ensures high_kept { (z : ℕ) → int_at self.new.high z ≤ℤ CAP }
    {
        self.low = [-CAP; MOST_ZONES];
        self.high = [CAP; MOST_ZONES];
    }

    /// Leaves out the prices at which an order of an open gate would lose.
    fn narrow(&mut self, opened: &Marks, order: &Order)
        requires order { IsValidOrder MOST_ZONES MOST_GATES order.now }
        requires low_kept { (z : ℕ) → neg_ℤ CAP ≤ℤ int_at self.old.low z }
        requires high_kept { (z : ℕ) → int_at self.old.high z ≤ℤ CAP }
        ensures low { (z : ℕ) → int_at self.new.low z ≡ int_max (int_at self.old.low z) (floor_at (opens_in opened.now) z order.now) }
        ensures high { (z : ℕ) → int_at self.new.high z ≡ int_min (int_at self.old.high z) (ceiling_at (opens_in opened.now) z order.now) }
    {
        if !opened.has_some(order.gate) {
            return;
        }
        let zone = order.zone as usize;
        match order.side {
            Side::Inject => self.low[zone] = self.low[zone].max(order.price.0),
            Side::Withdraw => self.high[zone] = self.high[zone].min(order.price.0),
        }
    }

    /// Leaves out the prices of a zone above one.
    fn lower(&mut self, zone: u32, greatest: Cents)
        requires zone { zone < MOST_ZONES }
        requires high_kept { (z : ℕ) → int_at self.old.high z ≤ℤ CAP }
        ensures low { self.new.low ≡ self.old.low }
        ensures high { (z : ℕ) → int_at self.new.high z ≡ int_min (int_at self.old.high z) (if zone == z then greatest.0 else CAP) }
    {
        let zone = zone as usize;
        self.high[zone] = self.high[zone].min(greatest.0);
    }

    /// Leaves out the prices of a zone below one.
    fn raise(&mut self, zone: u32, least: Cents)
        requires zone { zone < MOST_ZONES }
        requires low_kept { (z : ℕ) → neg_ℤ CAP ≤ℤ int_at self.old.low z }
        ensures low { (z : ℕ) → int_at self.new.low z ≡ int_max (int_at self.old.low z) (if zone == z then least.0 else neg_ℤ CAP) }
        ensures high { self.new.high ≡ self.old.high }
    {
        let zone = zone as usize;
        self.low[zone] = self.low[zone].max(least.0);
    }

    /// Leaves out the prices that a decision doesn't allow.
    fn heed(&mut self, market: &Market, decision: &Decision)
        requires market { IsValid market.now }
        requires decision { IsDecision market.now decision.now }
        requires low_kept { (z : ℕ) → neg_ℤ CAP ≤ℤ int_at self.old.low z }
        requires high_kept { (z : ℕ) → int_at self.old.high z ≤ℤ CAP }
        ensures low { (z : ℕ) → int_at self.new.low z ≡ int_max (int_at self.old.low z) (floor_said z decision.now) }
        ensures high { (z : ℕ) → int_at self.new.high z ≡ int_min (int_at self.old.high z) (ceiling_said z decision.now) }
    {
        match *decision {
            Decision::Gate(_, _) => {}
            Decision::AtMost(zone, price) => self.lower(zone, price),
            Decision::Above(zone, price) => self.raise(zone, next_price(price)),
        }
    }

    /// Leaves the prices that decisions allow.
    fn heed_all(&mut self, market: &Market, decisions: &[Decision])
        requires market { IsValid market.now }
        requires decisions { AreDecisions market.now decisions.now }
        ensures low { (z : ℕ) → z < MOST_ZONES → int_at self.new.low z ≡ low_said decisions.now z }
        ensures high { (z : ℕ) → z < MOST_ZONES → int_at self.new.high z ≡ high_said decisions.now z }
        ensures low_kept { (z : ℕ) → neg_ℤ CAP ≤ℤ int_at self.new.low z }
        ensures high_kept { (z : ℕ) → int_at self.new.high z ≤ℤ CAP }
    {
        self.widen();
        for decision in decisions {
            self.heed(market, decision);
        }
    }

    /// Leaves the prices that decisions allow and at which no order of an open gate would lose.
    pub(crate) fn set(
        &mut self,
        market: &Market,
        opened: &Marks,
        decisions: &[Decision],
        orders: &[Order],
    )
        requires market { IsValid market.now }
        requires decisions { AreDecisions market.now decisions.now }
        requires orders { All (IsValidOrder MOST_ZONES MOST_GATES) orders.now }
        ensures low { (z : ℕ) → z < MOST_ZONES → int_at self.new.low z ≡ low_by (opens_in opened.now) decisions.now orders.now z }
        ensures high { (z : ℕ) → z < MOST_ZONES → int_at self.new.high z ≡ high_by (opens_in opened.now) decisions.now orders.now z }
    {
        self.heed_all(market, decisions);
        for order in orders {
            self.narrow(opened, order);
        }
    }

    /// Whether an order gains at all prices of its zone.
    pub(crate) fn gains(&self, order: &Order) -> bool
        requires { order.now.zone < MOST_ZONES }
        ensures { result ≡ gains_in self.now order.now }
    {
        match order.side {
            Side::Inject => order.price.0 < self.low[order.zone as usize],
            Side::Withdraw => self.high[order.zone as usize] < order.price.0,
        }
    }

    /// Whether an order loses at all prices of its zone.
    pub(crate) fn loses(&self, order: &Order) -> bool
        requires { order.now.zone < MOST_ZONES }
        ensures { result ≡ loses_in self.now order.now }
    {
        match order.side {
            Side::Inject => self.high[order.zone as usize] < order.price.0,
            Side::Withdraw => order.price.0 < self.low[order.zone as usize],
        }
    }

    /// Whether a zone is dearer than another at all their prices.
    pub(crate) fn is_dearer(&self, dear: u32, cheap: u32) -> bool
        requires dear { dear < MOST_ZONES }
        requires cheap { cheap < MOST_ZONES }
        ensures { result ≡ is_dearer_in self.now dear cheap }
    {
        self.high[cheap as usize] < self.low[dear as usize]
    }
}
