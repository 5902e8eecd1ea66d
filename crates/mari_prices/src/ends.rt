//! The ends of all zones' intervals, and the chain that shows that there are none.

ghost use Rattle.std.specs.Prelude.{◌≡◌, ◌<◌, ◌≤◌, IsTrue, ◌↔◌, false, None, length, IfOk, IfSome, MatchOption, ◌<ℤ◌, neg_ℤ, Some};
ghost use Rattle.std.specs.List.{All};
ghost use Rattle.mari_market.specs.declared.activation.Activation.{Activation as TheActivation};
ghost use Rattle.mari_market.specs.Market.{IsValid};
ghost use Rattle.mari_market.specs.Optimal.{IsFeasible};
ghost use Rattle.mari_market.specs.Price.{IsPrice};
ghost use Rattle.mari_prices.specs.Ends.{along_of, ArePriced, ArePricesOf, AreTrails, AreUncontradicted, IsBoundedAt, IsContradicted, IsEnd, IsTrailTo};
ghost use Rattle.mari_prices.specs.Spread.{entry_at};
ghost use Rattle.mari_prices.specs.Tightest.{AreTightest, signed};
ghost use Rattle.mari_prices.specs.declared.spread.SettledZone.{SettledZone};

use crate::bounds::{End, PriceBounds, tightest};
use crate::spread::{SettledZone, spread};
use mari_market::{Activation, Along, Market, Prices};
use mari_units::{Cents, Items, MOST_ZONES};
use std::alloc::{AllocError, Global};

impl End {
    /// How the bounds of this end spread along borders.
    fn along(self) -> Along
        ensures { result ≡ along_of self }
    {
        match self {
            End::Least => Along::Rising,
            End::Greatest => Along::Falling,
        }
    }

    /// The price that a value of this end stands for: the values of the greatest end are negated.
    fn price(self, value: i64) -> Cents
        requires { IsPrice value }
        ensures { result.0 ≡ signed self value }
    {
        match self {
            End::Least => Cents(value),
            End::Greatest => Cents(-value),
        }
    }
}

/// Each zone's tightest bounds by its own orders.
pub(crate) fn bounds_of(
    alloc: Global,
    market: &Market,
    activation: &Activation,
) -> Result<PriceBounds, AllocError>
    requires valid { IsValid market.now }
    requires feasible { IsFeasible market.now activation.now }
    ensures least { IfOk result (λ b. AreTightest End.Least market.now.orders activation.now.mw market.now.zones b.least.items) }
    ensures greatest { IfOk result (λ b. AreTightest End.Greatest market.now.orders activation.now.mw market.now.zones b.greatest.items) }
{
    let (orders, mw) = (market.orders.as_slice(), activation.mw.as_slice());
    tightest(alloc, market.zones, orders, mw)
}

/// What each zone gets as the bounds at one end spread.
pub(crate) fn spread_of(
    alloc: Global,
    market: &Market,
    flow: &[i64],
    bounds: &[i64],
    end: End,
) -> Result<Vec<Option<SettledZone>>, AllocError>
    requires valid { IsValid market.now }
    requires bounded { (a : TheActivation) × IsBoundedAt end market.now flow.now bounds.now a }
    ensures { (a : TheActivation) → IsBoundedAt end market.now flow.now bounds.now a → IfOk result (λ v. IsEnd end market.now a bounds.now v.items) }
{
    spread(alloc, bounds, market.borders.as_slice(), flow, end.along())
}

/// The prices that the values stand for.
pub(crate) fn prices_of_settled(
    alloc: Global,
    settled: &[Option<SettledZone>],
    end: End,
) -> Result<Prices, AllocError>
    requires { ArePriced settled.now }
    ensures { IfOk result (λ p. ArePricesOf end settled.now p.cents) }
{
    let mut cents = Vec::new(alloc);
    for entry in settled {
        match entry {
            Some(zone) => cents.push(end.price(zone.value))?,
            None => unreachable!(),
        }
    }
    Ok(Prices {
        cents: Items::of(cents),
    })
}

/// Whether a least price is above the upper bound, which stands with its sign turned.
fn is_above(entry: &Option<SettledZone>, upper: i64) -> bool
    requires upper { IsPrice upper }
    requires value { IfSome entry.now (λ s. IsPrice s.value) }
    ensures none { entry.now ≡ None → result ≡ false }
    ensures some { (s : SettledZone) → entry.now ≡ Some s → (IsTrue result ↔ (neg_ℤ upper <ℤ s.value)) }
{
    match entry {
        Some(zone) => zone.value > -upper,
        None => false,
    }
}

/// A zone whose least price is above its upper bound.
pub(crate) fn contradicted(settled: &[Option<SettledZone>], uppers: &[i64]) -> Option<u32>
    requires lengths { length uppers.now ≡ length settled.now }
    requires few { length settled.now ≤ MOST_ZONES }
    requires priced { ArePriced settled.now }
    requires uppers { All IsPrice uppers.now }
    ensures { MatchOption result (AreUncontradicted (length settled.now) settled.now uppers.now) (IsContradicted settled.now uppers.now) }
{
    for (zone, entry) in settled.iter().enumerate() {
        if is_above(entry, uppers[zone]) {
            return Some(zone as u32);
        }
    }
    None
}

/// The zone that settled this one.
fn previous_of(settled: &[Option<SettledZone>], zone: u32) -> Option<u32>
    requires { zone < length settled.now }
    ensures { (s : SettledZone) → entry_at settled.now zone ≡ Some s → result ≡ s.previous }
{
    match settled[zone as usize] {
        Some(entry) => entry.previous,
        None => None,
    }
}

/// The chain of zones along which the last one got its value.
pub(crate) fn chain_to(
    alloc: Global,
    settled: &[Option<SettledZone>],
    last: u32,
) -> Result<Vec<u32>, AllocError>
    requires last { last < length settled.now }
    requires trails { AreTrails settled.now }
    ensures { IfOk result (λ v. IsTrailTo settled.now last v.items) }
{
    let mut chain = Vec::with_capacity(alloc, settled.len())?;
    chain.push(last)?;
    let mut first = last;
    while let Some(before) = previous_of(settled, first) {
        chain.push(before)?;
        first = before;
    }
    chain.reverse();
    Ok(chain)
}
