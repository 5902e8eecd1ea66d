//! The ends of the intervals of consistent prices, and by the same bounds whether prices are consistent.
//!
//! These and `spread.rt` do what `bounds.rt` and `spread.rt` of `mari_prices` do, in some 50 lines that look alike: a
//! fault in the code that finds the published prices must not be one of the check too. Both are proved from the
//! definitions of `mari_market`. These ask its functions what an order or a border says of a price.

ghost use Rattle.std.specs.Prelude.{◌≡◌, ◌<◌, ◌≤◌, ℕ, List, length, slice_index, IfOk, IsTrue, ◌↔◌};
ghost use Rattle.std.specs.List.{All, AllZip};
ghost use Rattle.mari_market.specs.Market.{IsValid};
ghost use Rattle.mari_market.specs.Optimal.{IsConsistent, IsFeasible};
ghost use Rattle.mari_market.specs.Price.{IsCapped, IsPrice};
ghost use Rattle.mari_units.specs.declared.numbers.Cents.{Cents as TheCents};
ghost use Rattle.mari_check.specs.Ends.{AreEndPrices, AreHeights, ArePricesOf, AreRaised, AreTightest, IsHeight, IsKept, IsRaised, SetsAtEnd, along_of};
ghost use Rattle.mari_market.specs.Consistent.{own_standing};
ghost use Rattle.mari_check.specs.Spread.{AreSmall, most_value};

use crate::spread::spread;
use mari_market::{Activation, Along, Market, Order, Prices, Standing};
use mari_units::{CAP, Cents, Memory};
use mari_welfare::borders_agree;
use std::alloc::Global;

/// An end of each zone's interval. Prices are counted by their height: how far they lie above the least price that
/// there may be, or, at the greatest end, below the greatest. So upper bounds are handled as lower bounds are.
#[derive(Clone, Copy, Drop, PartialEq, Eq)]
pub(crate) enum End {
    /// The least price.
    Least,
    /// The greatest price.
    Greatest,
}

impl End {
    /// The height of a price.
    fn height(self, price: Cents) -> u64
        requires { IsPrice price.0 }
        ensures { IsHeight self price.0 result }
    {
        match self {
            End::Least => (price.0 + CAP) as u64,
            End::Greatest => (CAP - price.0) as u64,
        }
    }

    /// The price of a height.
    fn price(self, height: u64) -> Cents
        requires { height ≤ most_value }
        ensures { IsHeight self result.0 height }
    {
        match self {
            End::Least => Cents(height as i64 - CAP),
            End::Greatest => Cents(CAP - height as i64),
        }
    }

    /// How the bounds spread.
    fn along(self) -> Along
        ensures { result ≡ along_of self }
    {
        match self {
            End::Least => Along::Rising,
            End::Greatest => Along::Falling,
        }
    }

    /// Whether an order of this standing bounds its zone's price at this end.
    fn is_set_by(self, order: &Order, standing: Standing, mw: u32) -> bool
        ensures { IsTrue result ↔ SetsAtEnd self standing order.now.side order.now.greatest mw }
    {
        match self {
            End::Least => order.sets_lower(standing, mw),
            End::Greatest => order.sets_upper(standing, mw),
        }
    }

    /// Whether a price keeps a bound of this height.
    fn is_kept_by(self, price: Cents, bound: u64) -> bool
        requires { IsPrice price.0 }
        ensures { IsTrue result ↔ IsKept self price bound }
    {
        bound <= self.height(price)
    }
}

/// Raises the bound of an order's zone to what the order sets.
fn set_bound(bounds: &mut [u64], order: Order, mw: u32, end: End)
    requires zone { order.zone < length bounds.old }
    requires price { IsPrice order.price.0 }
    requires sets { SetsAtEnd end (own_standing order.gate mw) order.side order.greatest mw }
    ensures one_each { length bounds.new ≡ length bounds.old }
    ensures raised { (z : ℕ) → IsRaised end order mw z (slice_index bounds.old z) (slice_index bounds.new z) }
{
    let (zone, height) = (order.zone as usize, end.height(order.price));
    if bounds[zone] < height {
        bounds[zone] = height;
    }
}

/// Raises the bound of an order's zone, if the order sets one. The standing is the order's own.
fn raise(bounds: &mut [u64], order: Order, standing: Standing, mw: u32, end: End)
    requires standing { standing ≡ own_standing order.gate mw }
    requires zone { order.zone < length bounds.old }
    requires price { IsPrice order.price.0 }
    ensures one_each { length bounds.new ≡ length bounds.old }
    ensures raised { (z : ℕ) → IsRaised end order mw z (slice_index bounds.old z) (slice_index bounds.new z) }
{
    if end.is_set_by(&order, standing, mw) {
        set_bound(bounds, order, mw, end);
    }
}

/// A bound of each zone's price at both ends, by its height.
#[derive(Drop)]
pub(crate) struct Heights {
    /// Those at the least end.
    pub least: Vec<u64>,
    /// Those at the greatest end.
    pub greatest: Vec<u64>,
}

impl Heights {
    /// Raises the bounds of an order's zone at both ends to what an order of this standing sets, which is its own.
    fn raise_standing(&mut self, order: Order, standing: Standing, mw: u32)
        requires standing { standing ≡ own_standing order.gate mw }
        requires least { order.zone < length self.old.least.items }
        requires greatest { order.zone < length self.old.greatest.items }
        requires price { IsPrice order.price.0 }
        ensures { AreRaised order mw self.old self.new }
    {
        raise(&mut self.least, order, standing, mw, End::Least);
        raise(&mut self.greatest, order, standing, mw, End::Greatest);
    }

    /// Raises the bounds of an order's zone to what the order sets at both ends. The order comes by value, so that it is
    /// read once, and a plain one apart, as most are: its standing is known without what it runs.
    fn raise(&mut self, order: Order, mw: u32)
        requires least { order.zone < length self.old.least.items }
        requires greatest { order.zone < length self.old.greatest.items }
        requires price { IsPrice order.price.0 }
        ensures { AreRaised order mw self.old self.new }
    {
        if order.gate.is_none() {
            self.raise_standing(order, Standing::Plain, mw);
        } else {
            self.raise_standing(order, order.own_standing(mw), mw);
        }
    }

    /// Whether each price keeps its zone's bounds at both ends.
    fn are_kept_by(&self, prices: &[Cents]) -> bool
        requires prices { All IsCapped prices.now }
        requires least { length self.now.least.items ≡ length prices.now }
        requires greatest { length self.now.greatest.items ≡ length prices.now }
        ensures { IsTrue result ↔ (AllZip (IsKept End.Least) prices.now self.now.least.items
            × AllZip (IsKept End.Greatest) prices.now self.now.greatest.items) }
    {
        are_kept(&self.least, prices, End::Least) && are_kept(&self.greatest, prices, End::Greatest)
    }
}

/// Whether each price keeps its zone's bound at this end.
fn are_kept(bounds: &[u64], prices: &[Cents], end: End) -> bool
    requires prices { All IsCapped prices.now }
    requires lengths { length bounds.now ≡ length prices.now }
    ensures { IsTrue result ↔ AllZip (IsKept end) prices.now bounds.now }
{
    for (zone, price) in prices.iter().enumerate() {
        if !end.is_kept_by(*price, bounds[zone]) {
            return false;
        }
    }
    true
}

/// Each zone's tightest bounds at both ends, in one pass over the orders. It is not inlined, so that its loop, which
/// every order goes through, has all registers to itself.
#[inline(never)]
fn tightest(alloc: Global, zones: u32, orders: &[Order], mw: &[u32]) -> Result<Heights, Memory>
    requires lengths { length mw.now ≡ length orders.now }
    requires zones { All (λ o. o.zone < zones) orders.now }
    requires prices { All (λ o. IsPrice o.price.0) orders.now }
    ensures least { IfOk result (λ h. AreTightest End.Least orders.now mw.now zones h.least.items) }
    ensures greatest { IfOk result (λ h. AreTightest End.Greatest orders.now mw.now zones h.greatest.items) }
{
    let least = vec![in alloc; 0u64; zones as usize]?;
    let greatest = vec![in alloc; 0u64; zones as usize]?;
    let mut heights = Heights { least, greatest };
    for (i, order) in orders.iter().enumerate() {
        heights.raise(*order, mw[i]);
    }
    Ok(heights)
}

/// Each zone's tightest bounds by the orders of a market, at both ends.
///
/// One pass serves two tests. Prices that keep the tightest bounds keep those of all orders, so with these bounds no
/// order need be asked again whether the prices are consistent; and the ends of the intervals are what the same bounds
/// come to along the borders.
pub(crate) fn heights_of(
    alloc: Global,
    market: &Market,
    activation: &Activation,
) -> Result<Heights, Memory>
    requires valid { IsValid market.now }
    requires feasible { IsFeasible market.now activation.now }
    ensures { IfOk result (AreHeights market.now activation.now) }
{
    let (orders, mw) = (market.orders.as_slice(), activation.mw.as_slice());
    tightest(alloc, market.zones, orders, mw)
}

/// Whether prices are consistent with a feasible activation, by its tightest bounds.
pub(crate) fn are_consistent(
    market: &Market,
    activation: &Activation,
    prices: &Prices,
    heights: &Heights,
) -> bool
    requires valid { IsValid market.now }
    requires feasible { IsFeasible market.now activation.now }
    requires heights { AreHeights market.now activation.now heights.now }
    ensures { IsTrue result ↔ IsConsistent market.now activation.now prices.now.cents }
{
    let (borders, flow) = (market.borders.as_slice(), activation.flow.as_slice());
    let prices = prices.cents.as_slice();
    market.are_prices(prices) && heights.are_kept_by(prices) && borders_agree(borders, flow, prices)
}

/// The prices of heights.
fn prices_of_heights(alloc: Global, heights: &[u64], end: End) -> Result<Vec<Cents>, Memory>
    requires { AreSmall heights.now }
    ensures { IfOk result (λ prices. ArePricesOf end heights.now prices.items) }
{
    let mut prices = Vec::new(alloc);
    for height in heights {
        prices.push(end.price(*height))?;
    }
    Ok(prices)
}

/// The prices at an end of all zones' intervals, by the tightest bounds there, where some prices are consistent.
pub(crate) fn ends_of(
    alloc: Global,
    market: &Market,
    activation: &Activation,
    bounds: Vec<u64>,
    end: End,
) -> Result<Vec<Cents>, Memory>
    requires valid { IsValid market.now }
    requires feasible { IsFeasible market.now activation.now }
    requires some { (ps : List TheCents) × IsConsistent market.now activation.now ps }
    requires bounds { AreTightest end market.now.orders activation.now.mw market.now.zones bounds.items }
    ensures { IfOk result (λ prices. AreEndPrices end market.now activation.now prices.items) }
{
    let (borders, flow) = (market.borders.as_slice(), activation.flow.as_slice());
    let heights = spread(bounds, borders, flow, end.along());
    let prices = prices_of_heights(alloc, &heights, end)?;
    Ok(prices)
}
