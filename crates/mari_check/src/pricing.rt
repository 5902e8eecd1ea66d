//! The intervals and the prices of a block.

ghost use Rattle.std.specs.Prelude.{◌≡◌, List, IfOk, IsTrue, ◌↔◌};
ghost use Rattle.std.specs.List.{All, AllZip};
ghost use Rattle.mari_units.specs.declared.numbers.Cents.{Cents as TheCents};
ghost use Rattle.mari_market.specs.Interval.{ArePublishedPrices, IsNearest};
ghost use Rattle.mari_market.specs.Market.{IsValid};
ghost use Rattle.mari_market.specs.Optimal.{IsConsistent, IsFeasible};
ghost use Rattle.mari_check.specs.Ends.{AreEndPrices, AreHeights, AreTightest};
ghost use Rattle.mari_check.specs.Faults.{HasIntervals};
ghost use Rattle.mari_check.specs.Lines.{IsInOrder, IsNearestLine, IsSamePrice};
ghost use Rattle.mari_progress.specs.Reported.{activation_of as activation_reported, prices_of as prices_reported};

use crate::ends::{End, Heights, ends_of};
use crate::reported::{greatest_of, least_of};
use mari_market::{Activation, Market};
use mari_publish::{FullBlock, ZoneLine};
use mari_units::{Cents, Memory};
use std::alloc::Global;

/// Whether two prices are the same.
fn is_same(price: Cents, other: Cents) -> bool
    ensures { IsTrue result ↔ IsSamePrice price other }
{
    price == other
}

/// Whether prices are the same, zone by zone.
fn are_same(prices: &[Cents], others: &[Cents]) -> bool
    ensures { IsTrue result ↔ AllZip IsSamePrice prices.now others.now }
{
    if prices.len() != others.len() {
        return false;
    }
    for (zone, price) in prices.iter().enumerate() {
        if !is_same(*price, others[zone]) {
            return false;
        }
    }
    true
}

/// Whether these are the prices at an end of all zones' intervals, by the tightest bounds there.
fn are_ends(
    alloc: Global,
    market: &Market,
    activation: &Activation,
    reported: &[Cents],
    bounds: Vec<u64>,
    end: End,
) -> Result<bool, Memory>
    requires valid { IsValid market.now }
    requires feasible { IsFeasible market.now activation.now }
    requires some { (ps : List TheCents) × IsConsistent market.now activation.now ps }
    requires bounds { AreTightest end market.now.orders activation.now.mw market.now.zones bounds.items }
    ensures { IfOk result (λ is. IsTrue is ↔ AreEndPrices end market.now activation.now reported.now) }
{
    let prices = ends_of(alloc, market, activation, bounds, end)?;
    Ok(are_same(reported, &prices))
}

/// Whether each zone's least and greatest price are those of its consistent prices, by the tightest bounds.
pub(crate) fn has_intervals(
    alloc: Global,
    market: &Market,
    activation: &Activation,
    block: &FullBlock,
    heights: Heights,
) -> Result<bool, Memory>
    requires valid { IsValid market.now }
    requires reported { activation.now ≡ activation_reported block.now }
    requires feasible { IsFeasible market.now activation.now }
    requires some { (ps : List TheCents) × IsConsistent market.now activation.now ps }
    requires heights { AreHeights market.now activation.now heights }
    ensures { IfOk result (λ is. IsTrue is ↔ HasIntervals market.now block.now) }
{
    let least = least_of(alloc, block)?;
    let greatest = greatest_of(alloc, block)?;
    if !are_ends(alloc, market, activation, &least, heights.least, End::Least)? {
        return Ok(false);
    }
    are_ends(
        alloc,
        market,
        activation,
        &greatest,
        heights.greatest,
        End::Greatest,
    )
}

/// The price from the least to the greatest that is nearest to the reference.
fn nearest_of_line(line: &ZoneLine, reference: Cents) -> Cents
    requires { IsInOrder line.now }
    ensures { IsNearest line.now.least.0 line.now.greatest.0 reference.0 result.0 }
{
    Cents(reference.0.clamp(line.least.0, line.greatest.0))
}

/// Whether a zone's price is the one of its interval that is nearest to the reference.
fn is_nearest(line: &ZoneLine, reference: Cents) -> bool
    requires { IsInOrder line.now }
    ensures { IsTrue result ↔ IsNearestLine reference line.now }
{
    is_same(line.price, nearest_of_line(line, reference))
}

/// Whether each zone's price is the one of its interval that is nearest to the reference.
fn are_nearest(lines: &[ZoneLine], reference: Cents) -> bool
    requires { All IsInOrder lines.now }
    ensures { IsTrue result ↔ All (IsNearestLine reference) lines.now }
{
    for line in lines {
        if !is_nearest(line, reference) {
            return false;
        }
    }
    true
}

/// Whether each zone's price is the one of its interval that is nearest to the market's reference.
pub(crate) fn has_published_prices(market: &Market, block: &FullBlock) -> bool
    requires intervals { HasIntervals market.now block.now }
    ensures { IsTrue result ↔ ArePublishedPrices market.now (activation_reported block.now) (prices_reported block.now) }
{
    are_nearest(block.zones.as_slice(), market.reference)
}
