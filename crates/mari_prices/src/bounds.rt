//! The bounds that orders set on their zones' prices.

ghost use Rattle.std.specs.Prelude.{◌≡◌, ◌<◌, ℕ, length, IfOk, IsTrue, ◌↔◌};
ghost use Rattle.std.specs.List.{All};
ghost use Rattle.mari_market.specs.Price.{IsPrice};
ghost use Rattle.mari_market.specs.Sums.{int_at};
ghost use Rattle.mari_prices.specs.Tightest.{AreTightest, IsRaised, SetsAtEnd, signed};
ghost use Rattle.mari_market.specs.Consistent.{own_standing};

use mari_market::{Order, Side};
use mari_units::{CAP, Cents};
use std::alloc::{AllocError, Global};

/// The end of a zone's interval of prices. At the greatest end all values are prices with their signs turned, so that
/// lower bounds and upper bounds are handled alike.
#[derive(Clone, Copy, Debug, Drop, PartialEq, Eq)]
pub enum End {
    /// The least price.
    Least,
    /// The greatest price.
    Greatest,
}

impl End {
    /// The value of a price.
    pub(crate) fn signed(self, price: Cents) -> i64
        requires { IsPrice price.0 }
        ensures { result ≡ signed self price.0 }
    {
        match self {
            End::Least => price.0,
            End::Greatest => -price.0,
        }
    }

    /// Whether an order of a feasible activation, which runs `mw` MW, bounds its zone's price at this end.
    ///
    /// One that runs doesn't lose, and one that could run more would not gain. An order of a gate that runs nothing
    /// bounds nothing, since its gate is closed.
    pub fn is_set_by(self, order: &Order, mw: u32) -> bool
        ensures { IsTrue result ↔ SetsAtEnd self (own_standing order.now.gate mw) order.now.side order.now.greatest mw }
    {
        match (self, order.side) {
            (End::Least, Side::Inject) | (End::Greatest, Side::Withdraw) => mw > 0,
            (End::Least, Side::Withdraw) | (End::Greatest, Side::Inject) => {
                mw < order.greatest && (mw > 0 || order.gate.is_none())
            }
        }
    }
}

/// Raises the bounds at this end to what an order that runs `mw` MW sets.
fn raise(bounds: &mut [i64], order: &Order, mw: u32, end: End)
    requires zone { order.now.zone < length bounds.old }
    requires price { IsPrice order.now.price.0 }
    ensures { (z : ℕ) → IsRaised end order.now mw z (int_at bounds.old z) (int_at bounds.new z) }
{
    if end.is_set_by(order, mw) {
        let zone = order.zone as usize;
        bounds[zone] = bounds[zone].max(end.signed(order.price));
    }
}

/// A bound of each zone's price at both ends.
#[derive(Drop)]
pub struct PriceBounds {
    /// Those at the least end.
    pub least: Vec<i64>,
    /// Those at the greatest end, with their signs turned.
    pub greatest: Vec<i64>,
}

impl PriceBounds {
    /// Raises the bounds of an order's zone to what the order sets at both ends, where it runs `mw` MW.
    pub fn raise(&mut self, order: &Order, mw: u32)
        // The zone is there at both ends, and the price within the cap.
        requires least { order.now.zone < length self.old.least.items }
        requires greatest { order.now.zone < length self.old.greatest.items }
        requires price { IsPrice order.now.price.0 }

        // As many zones as before, each with its bounds raised.
        ensures lows { length self.new.least.items ≡ length self.old.least.items }
        ensures highs { length self.new.greatest.items ≡ length self.old.greatest.items }
        ensures least { (z : ℕ) → IsRaised End.Least order.now mw z (int_at self.old.least.items z) (int_at self.new.least.items z) }
        ensures greatest { (z : ℕ) → IsRaised End.Greatest order.now mw z (int_at self.old.greatest.items z) (int_at self.new.greatest.items z) }
    {
        raise(&mut self.least, order, mw, End::Least);
        raise(&mut self.greatest, order, mw, End::Greatest);
    }
}

/// Each zone's tightest bounds at both ends, in one pass over the orders.
pub(crate) fn tightest(
    alloc: Global,
    zones: u32,
    orders: &[Order],
    mw: &[u32],
) -> Result<PriceBounds, AllocError>
    requires lengths { length mw.now ≡ length orders.now }
    requires zones { All (λ o. o.zone < zones) orders.now }
    requires prices { All (λ o. IsPrice o.price.0) orders.now }
    ensures least { IfOk result (λ b. AreTightest End.Least orders.now mw.now zones b.least.items) }
    ensures greatest { IfOk result (λ b. AreTightest End.Greatest orders.now mw.now zones b.greatest.items) }
{
    let least = vec![in alloc; -CAP; zones as usize]?;
    let greatest = vec![in alloc; -CAP; zones as usize]?;
    let mut bounds = PriceBounds { least, greatest };
    for (i, order) in orders.iter().enumerate() {
        bounds.raise(order, mw[i]);
    }
    Ok(bounds)
}
