//! What orders and borders ask of prices: which order bounds its zone's price, and over which border a price leads on.

ghost use Rattle.std.specs.Prelude.{◌≡◌, IsTrue, ◌↔◌};
ghost use Rattle.std.specs.List.{All};
ghost use Rattle.mari_market.specs.Along.{LeadsBy};
ghost use Rattle.mari_market.specs.Consistent.{HasRoomBack, HasRoomOn, SetsLower, SetsUpper, own_standing};
ghost use Rattle.mari_market.specs.Price.{ArePrices, IsCapped, IsPrice};

use crate::along::Along;
use crate::market::{Border, Market, Order, Side};
use mari_units::{CAP, Cents};

/// How an order stands to its gate.
#[derive(Clone, Copy, Debug, Drop, PartialEq, Eq)]
pub enum Standing {
    /// It has no gate.
    Plain,
    /// Its gate is open.
    InOpen,
    /// Its gate is closed.
    InClosed,
}

impl Order {
    /// The standing of an order of a feasible activation, where an order of a gate runs exactly where its gate is open.
    pub fn own_standing(&self, mw: u32) -> Standing
        ensures { result ≡ own_standing self.now.gate mw }
    {
        match self.gate {
            None => Standing::Plain,
            Some(_) if mw > 0 => Standing::InOpen,
            Some(_) => Standing::InClosed,
        }
    }

    /// Whether the order's price is a lower bound of its zone's price, where it runs `mw` MW.
    ///
    /// An injection that runs doesn't lose, also an indivisible one, and a withdrawal that could run more would not
    /// gain.
    pub fn sets_lower(&self, standing: Standing, mw: u32) -> bool
        ensures { IsTrue result ↔ SetsLower standing self.now.side self.now.greatest mw }
    {
        match (standing, self.side) {
            (Standing::Plain, Side::Inject) => mw > 0,
            (Standing::InOpen, Side::Inject) => true,
            (Standing::Plain | Standing::InOpen, Side::Withdraw) => mw < self.greatest,
            (Standing::InClosed, _) => false,
        }
    }

    /// Whether the order's price is an upper bound of its zone's price, where it runs `mw` MW.
    ///
    /// A withdrawal that runs doesn't lose, also an indivisible one, and an injection that could run more would not
    /// gain.
    pub fn sets_upper(&self, standing: Standing, mw: u32) -> bool
        ensures { IsTrue result ↔ SetsUpper standing self.now.side self.now.greatest mw }
    {
        match (standing, self.side) {
            (Standing::Plain | Standing::InOpen, Side::Inject) => mw < self.greatest,
            (Standing::Plain, Side::Withdraw) => mw > 0,
            (Standing::InOpen, Side::Withdraw) => true,
            (Standing::InClosed, _) => false,
        }
    }
}

impl Border {
    /// Whether the border could carry more from its first zone to its second than `flow` MW.
    ///
    /// Then the price of the first zone is at least that of the second.
    pub fn has_room_on(&self, flow: i64) -> bool
        ensures { IsTrue result ↔ HasRoomOn self.now flow }
    {
        flow < i64::from(self.limit)
    }

    /// Whether the border could carry less, or more the other way.
    ///
    /// Then the price of the second zone is at least that of the first.
    pub fn has_room_back(&self, flow: i64) -> bool
        ensures { IsTrue result ↔ HasRoomBack self.now flow }
    {
        -i64::from(self.back) < flow
    }

    /// Whether the border makes the price of the second zone given at least that of the first one given.
    pub fn leads(&self, flow: i64, first: u32, second: u32) -> bool
        ensures { IsTrue result ↔ LeadsBy first second self.now flow }
    {
        (self.from == first && self.to == second && Along::Rising.leads_on(self, flow))
            || (self.to == first && self.from == second && Along::Rising.leads_back(self, flow))
    }
}

/// Whether a price lies from the negative of the cap to the cap.
pub(crate) fn is_price(price: Cents) -> bool
    ensures { IsTrue result ↔ IsPrice price.0 }
{
    -CAP <= price.0 && price.0 <= CAP
}

/// Whether each price lies from the negative of the cap to the cap.
fn all_within_cap(prices: &[Cents]) -> bool
    ensures { IsTrue result ↔ All IsCapped prices.now }
{
    prices.iter().all(|price| is_price(*price))
}

impl Market {
    /// Whether there is one price for each zone, within the cap.
    pub fn are_prices(&self, prices: &[Cents]) -> bool
        ensures { IsTrue result ↔ ArePrices self.now prices.now }
    {
        prices.len() == self.zones as usize && all_within_cap(prices)
    }
}
