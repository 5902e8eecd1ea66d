//! Published prices.

ghost use Rattle.std.specs.Prelude.{◌≡◌, ◌<◌, ◌≤ℤ◌, ℕ, IfOk, length};
ghost use Rattle.mari_market.specs.Interval.{AreGreatestPrices, AreLeastPrices, ArePublishedPrices, IsNearest};
ghost use Rattle.mari_market.specs.Market.{IsValid};
ghost use Rattle.mari_market.specs.Optimal.{IsAdmissible, IsConsistent};
ghost use Rattle.mari_market.specs.Price.{price_at};
ghost use Rattle.mari_prices.specs.Published.{AreInOrder};

use crate::intervals::{Intervals, PriceFault, price_test};
use mari_market::{Activation, Market, Prices};
use mari_units::{Cents, Items, Memory};
use std::alloc::Global;

/// The prices of all zones.
#[derive(Drop)]
pub struct Pricing {
    /// The least consistent price of each zone.
    pub least: Prices,
    /// The greatest consistent price of each zone.
    pub greatest: Prices,
    /// The published price of each zone.
    pub published: Prices,
}

/// The price of an interval that is nearest to the reference: the reference itself, or the end that it lies beyond.
pub fn nearest(least: Cents, greatest: Cents, reference: Cents) -> Cents
    requires { least.0 ≤ℤ greatest.0 }
    ensures { IsNearest least.0 greatest.0 reference.0 result.0 }
{
    Cents(reference.0.clamp(least.0, greatest.0))
}

/// The least and the greatest consistent price of each zone, which are there for an admissible activation.
fn intervals_of(
    alloc: Global,
    market: &Market,
    activation: &Activation,
) -> Result<Intervals, Memory>
    requires valid { IsValid market.now }
    requires admissible { IsAdmissible market.now activation.now }
    ensures least { IfOk result (λ i. AreLeastPrices market.now activation.now i.least.cents) }
    ensures greatest { IfOk result (λ i. AreGreatestPrices market.now activation.now i.greatest.cents) }
{
    match price_test(alloc, market, activation) {
        Ok(intervals) => Ok(intervals),
        Err(PriceFault::Memory) => Err(Memory),
        Err(PriceFault::Conflict(_)) => unreachable!(),
    }
}

/// The price of each interval that is nearest to the reference.
fn nearest_prices(
    alloc: Global,
    least: &[Cents],
    greatest: &[Cents],
    reference: Cents,
) -> Result<Vec<Cents>, Memory>
    requires intervals { AreInOrder least.now greatest.now }
    ensures one_each { IfOk result (λ prices. length prices.items ≡ length least.now) }
    ensures nearest { IfOk result
        (λ prices. (z : ℕ) → z < length least.now → IsNearest (price_at least.now z) (price_at greatest.now z) reference.0 (price_at prices.items z)) }
{
    let mut prices = Vec::with_capacity(alloc, least.len())?;
    for (zone, low) in least.iter().enumerate() {
        prices.push(nearest(*low, greatest[zone], reference))?;
    }
    Ok(prices)
}

/// The prices of an admissible activation: for each zone the least and the greatest of its consistent prices, and the
/// one from the least to the greatest that is nearest to the market's reference price, which is published.
///
/// The published prices are together consistent. Time is that of the orders, and of zones times borders.
pub fn published_prices(
    alloc: Global,
    market: &Market,
    activation: &Activation,
) -> Result<Pricing, Memory>
    requires valid { IsValid market.now }
    requires admissible { IsAdmissible market.now activation.now }
    ensures least { IfOk result (λ p. AreLeastPrices market.now activation.now p.least.cents) }
    ensures greatest { IfOk result (λ p. AreGreatestPrices market.now activation.now p.greatest.cents) }
    ensures published { IfOk result (λ p. ArePublishedPrices market.now activation.now p.published.cents) }
    ensures consistent { IfOk result (λ p. IsConsistent market.now activation.now p.published.cents) }
{
    let intervals = intervals_of(alloc, market, activation)?;
    let published = nearest_prices(
        alloc,
        intervals.least.cents.as_slice(),
        intervals.greatest.cents.as_slice(),
        market.reference,
    )?;
    Ok(Pricing {
        least: intervals.least,
        greatest: intervals.greatest,
        published: Prices {
            cents: Items::of(published),
        },
    })
}
