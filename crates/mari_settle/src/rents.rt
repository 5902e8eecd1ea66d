//! The rents of borders.

ghost use Rattle.std.specs.Prelude.{◌≡◌, ◌≤◌, ◌<◌, ◌*◌, ◌-ℤ◌, length, unsigned_abs};
ghost use Rattle.std.specs.List.{All};
ghost use Rattle.mari_market.specs.Activation.{IsWithinLimits};
ghost use Rattle.mari_market.specs.Market.{IsValidBorder};
ghost use Rattle.mari_market.specs.Price.{IsCapped, price_at};
ghost use Rattle.mari_settle.specs.Conditions.{HasFlows, IsSmall};
ghost use Rattle.mari_settle.specs.Ledger.{rent_of as rent_at, rents_of};

use mari_market::{Activation, Border, MOST_WORTH, Market, worth};
use mari_units::{CAP, Cents, Quarters};

/// A zone's price.
pub(crate) fn price_of(prices: &[Cents], zone: u32) -> i64
    requires zone { zone < length prices.now }
    requires prices { All IsCapped prices.now }
    ensures value { result ≡ price_at prices.now zone }
    ensures small { unsigned_abs result ≤ unsigned_abs CAP }
{
    prices[zone as usize].0
}

/// How much dearer a border's second zone is than its first.
fn gap_of(border: &Border, prices: &[Cents]) -> i64
    requires border { IsValidBorder (length prices.now) border.now }
    requires prices { All IsCapped prices.now }
    ensures value { result ≡ price_at prices.now border.now.to -ℤ price_at prices.now border.now.from }
    ensures small { unsigned_abs result ≤ 2 * unsigned_abs CAP }
{
    price_of(prices, border.to) - price_of(prices, border.from)
}

/// A border's rent.
pub(crate) fn rent_of(border: &Border, flow: i64, prices: &[Cents]) -> i128
    requires border { IsValidBorder (length prices.now) border.now }
    requires prices { All IsCapped prices.now }
    requires flow { IsWithinLimits border.now flow }
    ensures value { result ≡ rent_at prices.now border.now flow }
    ensures small { unsigned_abs result ≤ MOST_WORTH }
{
    worth(Cents(gap_of(border, prices)), flow)
}

/// Writes each border's rent, in quarter-cents: how much dearer its second zone is than its first, times its flow.
pub fn write_rents(
    rents: &mut [Quarters],
    market: &Market,
    activation: &Activation,
    prices: &[Cents],
)
    requires lengths { length rents.old ≡ length market.now.borders }
    requires borders { All (IsValidBorder (length prices.now)) market.now.borders }
    requires prices { All IsCapped prices.now }
    requires flows { HasFlows market.now activation.now }
    ensures value { rents.new ≡ rents_of market.now activation.now prices.now }
    ensures small { All IsSmall rents.new }
{
    let flow = activation.flow.as_slice();
    for (i, border) in market.borders.as_slice().iter().enumerate() {
        rents[i] = Quarters(rent_of(border, flow[i], prices));
    }
}
